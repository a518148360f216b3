// What `quote` and `listing` share: the program's arguments, the section file that one of them names, and what is said on
// standard error where one cannot be had.
#![tactic(auto)]

ghost use Rattle.std.specs.Prelude.{◌≡◌, ◌≤◌, ◌↔◌, length, All, IfErr, IfOk, IsErrOf, IsUtf8};
ghost use Rattle.section_argument.specs.declared.Problem.TheVariants.{Failed, ListFull, NotUtf8, WrongCall};
ghost use Rattle.section_argument.specs.Problems.{IsOutOfMemory};

use file_blocks::blocks::TOO_LONG_FILE;
use std::alloc::{AllocError, AllocFailed, Global};
use std::env::{Env, FillError};
use std::io::{self, Read};
use std::rt::Files;
use std::{fmt, fs};

// A path that the system takes is no longer.
const PATH: usize = 4096;

// The words of room for 32,768 actions, and for all temporaries.
pub const ACTION_WORDS: usize = 786432;

pub const TEMPORARIES: usize = 512;

// No program takes more arguments than two; a third is enough to see that there are too many.
const ARGUMENTS: usize = 3;

// Why there is nothing to print.
#[derive(Debug, Drop)]
pub enum Problem {
    WrongCall,
    NotUtf8,
    // The path, and what the system says.
    CannotOpen(String),
    CannotRead(String),
    ListFull,
    // Of memory or of the output.
    Failed(io::Error),
}

impl From<io::Error> for Problem {
    ghost from_gives = { λ error problem. problem ≡ Failed error };

    fn from(error: io::Error) -> Problem {
        Problem::Failed(error)
    }
}

impl From<AllocError> for Problem {
    ghost from_gives = { λ _ problem. IsOutOfMemory problem };

    fn from(error: AllocError) -> Problem {
        Problem::Failed(io::Error::from(error))
    }
}

impl<T: Drop> From<AllocFailed<T>> for Problem {
    ghost from_gives = { λ _ problem. IsOutOfMemory problem };

    fn from(error: AllocFailed<T>) -> Problem {
        Problem::from(AllocError::from(error))
    }
}

// A program, by what it says of its own.
#[derive(Clone, Copy, Debug)]
pub struct Program {
    pub name: &'static str,
    pub usage: &'static str,
    pub list_full: &'static str,
}

impl fmt::Display for Problem {
    fn fmt<W: fmt::Write>(&self, f: &mut fmt::Formatter<W>) -> fmt::Result {
        match self {
            Problem::WrongCall => write!(f, "the arguments are not right"),
            Problem::NotUtf8 => write!(f, "the file cannot be opened: its name is not UTF-8"),
            Problem::CannotOpen(said) => write!(f, "the file cannot be opened: {said}"),
            Problem::CannotRead(said) => write!(f, "the file cannot be read: {said}"),
            Problem::ListFull => write!(f, "the list has no room for another action"),
            Problem::Failed(error) => write!(f, "{error}"),
        }
    }
}

impl Program {
    ghost use Rattle.std.specs.declared.io.Error.{Error};

    // Says on standard error what ended the program early; a failure of memory or of the output is left to `main`. What is
    // written on standard error, and whether it can be, the library does not promise.
    pub fn ended(self, rt: &impl Eprint, outcome: Result<(), Problem>) -> io::Result<()>
        ensures good { outcome ≡ Ok tt → result ≡ Ok tt }
        ensures failed { (error : Error) → outcome ≡ Err (Failed error) → result ≡ Err error }
    {
        let Err(problem) = outcome else {
            return Ok(());
        };
        let Program {
            name,
            usage,
            list_full,
        } = self;
        match problem {
            Problem::WrongCall => eprintln!(rt; "{name}: {usage}"),
            Problem::ListFull => eprintln!(rt; "{name}: {list_full}"),
            Problem::Failed(error) => Err(error),
            said => eprintln!(rt; "{name}: {said}"),
        }
    }
}

// The program's arguments, up to three of them, which the system gives by their numbers. One that is longer than a path can be
// makes the call a wrong one. No more can be promised: the library's `Env` says of an argument only that it fits the room for it.
pub fn arguments(rt: &(impl Env + AllocGlobal)) -> Result<Vec<Vec<u8>>, Problem>
    ensures count { IfOk result (λ words. length words.items ≤ 3) }
    ensures problems { IfErr result (λ problem. (problem ≡ WrongCall → ⊥) → IsOutOfMemory problem) }
    ensures lengths { IfOk result (λ words. All (λ word. length word.items ≤ 4096) words.items) }
{
    let mut words = Vec::new(rt.alloc());
    for index in 0..ARGUMENTS {
        let mut word = vec![in rt.alloc(); 0u8; PATH]?;
        match rt.arg(index + 1, &mut word) {
            Ok(length) => word.truncate(length),
            Err(FillError::NotPresent) => break,
            Err(FillError::TooLong) => return Err(Problem::WrongCall),
        }
        words.push(word)?;
    }
    Ok(words)
}

// What the system says of an error, without the number behind it.
fn words(said: &str) -> &str {
    match said.split_once(" (os error ") {
        Some((words, _)) => words,
        None => said,
    }
}

// The path, and the system's words.
fn said_of(alloc: Global, path: &str, error: &io::Error) -> Result<String, AllocError> {
    let said = error.to_string(alloc)?;
    format!(in alloc; "{path}: {}", words(said.as_str()))
}

// The bytes of the section file of that name, or as many as show that it is too long for one. The library's `Files` says of no
// file what it holds, so that neither these bytes nor their number can be promised.
pub fn read_section(rt: &(impl Files + AllocGlobal), path: &[u8]) -> Result<Vec<u8>, Problem>
    ensures name { IsErrOf result NotUtf8 ↔ (IsUtf8 path.now → ⊥) }
    ensures no_call { IsErrOf result WrongCall → ⊥ }
    ensures no_list { IsErrOf result ListFull → ⊥ }
{
    let Ok(path) = str::from_utf8(path) else {
        return Err(Problem::NotUtf8);
    };
    let file = match fs::open(rt, path) {
        Ok(file) => file,
        Err(error) => return Err(Problem::CannotOpen(said_of(rt.alloc(), path, &error)?)),
    };
    let mut bytes = Vec::new(rt.alloc());
    // By `as`, since both have 64 bits.
    if let Err(error) = file.take(TOO_LONG_FILE as u64).read_to_end(&mut bytes) {
        return Err(Problem::CannotRead(said_of(rt.alloc(), path, &error)?));
    }
    Ok(bytes)
}

#[cfg(test)]
mod tests {
    use super::*;
    use std::test::Fail;

    #[test]
    fn arguments_are_read(rt: HostRuntime) -> Result<(), Fail> {
        let words = arguments(&rt)?;
        assert!(rt; words.len() <= ARGUMENTS);
        Ok(())
    }

    // One byte more than the longest file shows that a file is too long.
    #[test]
    fn no_more_than_needed_is_read(rt: HostRuntime) -> Result<(), Fail> {
        assert_eq!(rt; read_section(&rt, b"/dev/zero")?.len(), 65537);
        assert_eq!(rt; read_section(&rt, b"/dev/null")?.len(), 0);
        Ok(())
    }

    #[test]
    fn a_missing_file_is_named(rt: HostRuntime) -> Result<(), Fail> {
        let Err(problem) = read_section(&rt, b"/no/such/file") else {
            return Err(Fail::from("a file that is missing"));
        };
        let said = problem.to_string(rt.alloc())?;
        assert_eq!(rt;
            said.as_str(),
            "the file cannot be opened: /no/such/file: No such file or directory"
        );
        Ok(())
    }

    #[test]
    fn only_the_number_is_cut_off(rt: HostRuntime) {
        assert_eq!(rt; words("Is a directory (os error 21)"), "Is a directory");
        assert_eq!(rt; words("unexpected end"), "unexpected end");
    }
}
