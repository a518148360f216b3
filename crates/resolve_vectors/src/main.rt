// Resolves the cases on standard input, which have the original's answers beside them, and says where an answer is another
// one. How the data is written is in compare/README.md, "Data files"; cases are numbered from 0, as `replay` does it there.
#![tactic(auto)]

use data::{Case, Cases};
use problem::Problem;
use std::alloc::Global;
use std::fmt;
use std::io::{self, BufWriter, Read, Write};

mod data;
mod problem;

// Data of so many bytes is too long.
const TOO_LONG: usize = 2621440;

// Refusals are below this.
const REFUSALS: usize = 64;

// How many cases have each refusal as their right answer, how many there are, and how many differ.
#[derive(Clone, Copy)]
struct Counts {
    by_refusal: [u64; REFUSALS],
    cases: u64,
    differ: u64,
}

impl Counts {
    fn count(&mut self, case: &Case<'_>, differs: bool) {
        if let Some(count) = self.by_refusal.get_mut(case.refusal() as usize) {
            *count = count.saturating_add(1);
        }
        if differs {
            self.differ = self.differ.saturating_add(1);
        }
    }
}

impl fmt::Display for Counts {
    fn fmt<W: fmt::Write>(&self, f: &mut fmt::Formatter<W>) -> fmt::Result {
        write!(f, "cases by refusal:")?;
        for (refusal, count) in self.by_refusal.iter().copied().enumerate() {
            if count > 0 {
                write!(f, " {refusal}:{count}")?;
            }
        }
        write!(f, "\n{} cases, {} differ", self.cases, self.differ)
    }
}

fn replay<W: Write>(out: &mut W, alloc: Global, data: &[u8]) -> Result<(), Problem> {
    let (cases, mut left) = Cases::new(data);
    let mut counts = Counts {
        by_refusal: [0; REFUSALS],
        cases,
        differ: 0,
    };
    // How many cases there are is told ahead of them, and each is printed by its number.
    for number in 0..cases {
        let case = left.case(alloc)?;
        let difference = case.difference(alloc)?;
        counts.count(&case, difference.is_some());
        if let Some(difference) = difference {
            writeln!(out, "case {number} differs: {difference}")?;
        }
    }
    left.end()?;
    writeln!(out, "{counts}")?;
    Ok(())
}

fn read<R: Input + AllocGlobal>(rt: &R) -> Result<Vec<u8>, Problem> {
    let mut data = Vec::new(rt.alloc());
    rt.reader().take(TOO_LONG as u64).read_to_end(&mut data)?;
    match data.len() {
        0 => Err(Problem::NoData),
        TOO_LONG => Err(Problem::TooLong),
        _ => Ok(data),
    }
}

// What is wrong with the data is said on standard error; a failure of memory, input or output is left to `main`.
fn complain(rt: &impl Eprint, problem: Problem) -> io::Result<()> {
    match problem {
        Problem::Failed(error) => Err(error),
        said => eprintln!(rt; "vectors: {said}"),
    }
}

// A complaint comes ahead of the differences that the buffer still holds, and also where these cannot be written.
fn replay_read(rt: &(impl Print + Eprint + AllocGlobal), data: &[u8]) -> io::Result<()> {
    let mut out = BufWriter::new(rt.alloc(), io::writer(rt))?;
    if let Err(problem) = replay(&mut out, rt.alloc(), data) {
        complain(rt, problem)?;
    }
    out.flush()
}

fn main(rt: HostRuntime) -> io::Result<()> {
    match read(&rt) {
        Ok(data) => replay_read(&rt, &data),
        Err(problem) => complain(&rt, problem),
    }
}

#[cfg(test)]
mod tests {
    use super::*;
    use std::cell::Cell;
    use std::test::Fail;

    // One case, with nothing lent: a file of one byte, which has no last two, and which is refused for its length.
    const ONE_BYTE: &[u8] = b"\x01\0\0\0\x01\0\0\0\x01\0\0\0\0\0\0\0\0\0\0\0*\x01\x01\x02\xff\xff\
        \0\0\0\0\0\0\0\0\0\0\0\0\0\0\0\0\0\0";

    #[test]
    fn a_file_of_one_byte(rt: HostRuntime) -> Result<(), Fail> {
        let mut out = Vec::new(rt.alloc());
        replay(&mut out, rt.alloc(), ONE_BYTE)?;
        assert_eq!(rt;
            out.as_slice(),
            b"cases by refusal: 1:1\n1 cases, 0 differ\n".as_slice()
        );
        Ok(())
    }

    // One case, of an empty file, whose right answer says 2 where 1 is right, and a byte more.
    const DIFFERS_AND_GOES_ON: &[u8] =
        b"\x01\0\0\0\0\0\0\0\0\0\0\0\0\0\0\0\0\0\0\0\x01\x02\x02\xff\xff\
        \0\0\0\0\0\0\0\0\0\0\0\0\0\0\0\0\0\0x";

    // Nothing can be written on standard output before something was said on standard error.
    #[derive(Drop)]
    struct SaysFirst(Cell<bool>);

    impl Print for SaysFirst {
        fn print<D: fmt::Display + Drop>(&self, _: D) -> io::Result<()> {
            self.write_all(b"")
        }

        fn println<D: fmt::Display + Drop>(&self, _: D) -> io::Result<()> {
            self.write_all(b"")
        }

        fn write_all(&self, _: &[u8]) -> io::Result<()> {
            if self.0.get() {
                return Ok(());
            }
            Err(io::Error::from(io::ErrorKind::Other))
        }
    }

    impl Eprint for SaysFirst {
        fn eprint<D: fmt::Display + Drop>(&self, _: D) -> io::Result<()> {
            self.0.set(true);
            Ok(())
        }

        fn eprintln<D: fmt::Display + Drop>(&self, text: D) -> io::Result<()> {
            self.eprint(text)
        }
    }

    #[test]
    fn the_complaint_comes_first(rt: HostRuntime) -> Result<(), Fail> {
        let outputs = (SaysFirst(Cell::new(false)), rt.alloc());
        replay_read(&outputs, DIFFERS_AND_GOES_ON)?;
        Ok(())
    }
}
