// Prints the quote of a section file: the first eight numbers of the result on a line, then words 0 to 3 of each action, a
// line each; after a refusal the first line alone. What cannot be quoted is said in a sentence on standard error.
#![tactic(auto)]

use codes::action;
use codes::refusal::Refusal;
use resolve_answer::answer::Answer;
use section_argument::{ACTION_WORDS, Problem, Program, TEMPORARIES, arguments, read_section};
use std::alloc::{AllocError, Global};
use std::env::Env;
use std::fmt;
use std::io::{self, BufWriter, Write};
use std::rt::Files;

const QUOTE: Program = Program {
    name: "quote",
    usage: "name one section file: quote FILE, or quote --large FILE",
    list_full: "the section has more than 32,768 actions; allow a stack of 48 MiB (ulimit -s 49152) and call quote --large FILE",
};

// The words of room for 208,896 actions, more than any section has (docs/DECISIONS.md).
const LARGE: usize = 5013504;

// An answer, and the words of its actions.
#[derive(Drop)]
struct Quote {
    answer: Answer,
    actions: Vec<u64>,
}

impl Quote {
    // The quote of a file, with room for so many words.
    fn new(alloc: Global, file: &[u8], room: usize) -> Result<Quote, AllocError> {
        let mut actions = vec![in alloc; 0u64; room]?;
        let mut temporaries = vec![in alloc; 0u64; TEMPORARIES]?;
        let answer = mizgalon::resolve(file, &mut actions, &mut temporaries);
        Ok(Quote { answer, actions })
    }

    fn is_list_full(&self) -> bool {
        self.answer.is(Refusal::ListFull)
    }
}

impl fmt::Display for Quote {
    fn fmt<W: fmt::Write>(&self, f: &mut fmt::Formatter<W>) -> fmt::Result {
        let answer = self.answer;
        write!(f, "{} {} ", answer.refusal, answer.ordinal)?;
        write!(f, "{} {} ", answer.statements, answer.actions)?;
        write!(f, "{} {} ", answer.temporaries, answer.labels)?;
        writeln!(f, "{} {}", answer.points, answer.errors)?;
        let (actions, _) = self.actions.as_chunks::<{ action::WORDS }>();
        for [kind, operation, number, inputs, ..] in actions.iter().take(answer.actions as usize) {
            writeln!(f, "{kind} {operation} {number} {inputs}")?;
        }
        Ok(())
    }
}

// The quote in the usual room, or in the large one where that is wanted and the usual one is not enough.
fn quoted(alloc: Global, file: &[u8], large: bool) -> Result<Quote, Problem> {
    let usual = Quote::new(alloc, file, ACTION_WORDS)?;
    if !usual.is_list_full() {
        return Ok(usual);
    }
    if !large {
        return Err(Problem::ListFull);
    }
    drop(usual);
    Ok(Quote::new(alloc, file, LARGE)?)
}

fn print_quote(
    rt: &(impl Files + Print + AllocGlobal),
    path: &[u8],
    large: bool,
) -> Result<(), Problem> {
    let file = read_section(rt, path)?;
    let mut out = BufWriter::new(rt.alloc(), io::writer(rt))?;
    write!(out, "{}", quoted(rt.alloc(), &file, large)?)?;
    Ok(out.flush()?)
}

fn run(rt: &(impl Env + Files + Print + AllocGlobal)) -> Result<(), Problem> {
    match arguments(rt)?.as_slice() {
        [path] => print_quote(rt, path, false),
        [option, path] if option.as_slice() == b"--large".as_slice() => print_quote(rt, path, true),
        _ => Err(Problem::WrongCall),
    }
}

fn main(rt: HostRuntime) -> io::Result<()> {
    QUOTE.ended(&rt, run(&rt))
}
