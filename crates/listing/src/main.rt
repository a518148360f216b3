// Prints the p-code of a section file for a person: a line for each action, then the export, then the counts and whether the
// checker accepts the list; or a refusal in plain words. What cannot be listed is said in a sentence on standard error.
#![tactic(auto)]

use accepted::Accepted;
use codes::refusal::Refusal;
use expr_terms::answers::given;
use list_values::section::Section;
use mizgalon::Checked;
use names::Names;
use refusals::{Reason, Refused};
use resolve_file::section::with_section;
use section_argument::{ACTION_WORDS, Problem, Program, TEMPORARIES, arguments, read_section};
use statements::Statement;
use std::alloc::{AllocError, Global};
use std::env::Env;
use std::io::{self, BufWriter, Write};
use std::rt::Files;

mod accepted;
mod actions;
mod names;
mod refusals;
mod statements;
mod values;

const LISTING: Program = Program {
    name: "listing",
    usage: "name one section file: listing FILE",
    list_full: "the section has more than 32,768 actions, for which it has no room",
};

// What a file is resolved to, and the checker's word on it.
#[derive(Drop)]
struct Listing {
    checked: Checked,
    list: Vec<u64>,
    temporaries: Vec<u64>,
}

impl Listing {
    fn new(alloc: Global, file: &[u8]) -> Result<Listing, AllocError> {
        let mut list = vec![in alloc; 0u64; ACTION_WORDS]?;
        let mut temporaries = vec![in alloc; 0u64; TEMPORARIES]?;
        let checked = mizgalon::resolve_checked(file, &mut list, &mut temporaries);
        Ok(Listing {
            checked,
            list,
            temporaries,
        })
    }

    fn is_list_full(&self) -> bool {
        self.checked.answer.is(Refusal::ListFull)
    }

    // A file that is refused before its section can be read has no statement to name.
    fn print<W: Write>(&self, out: &mut W, section: Option<Section<'_>>) -> io::Result<()> {
        let answer = self.checked.answer;
        if let Ok(reason) = Reason::try_from(answer.refusal) {
            let statement = match (section, given(answer.ordinal)) {
                (Some(section), Some(ordinal)) => Some(Statement::new(section, ordinal)),
                _ => None,
            };
            let errors = answer.errors;
            let refused = Refused {
                reason,
                errors,
                statement,
            };
            return write!(out, "{refused}");
        }
        let Some(section) = section else {
            return Ok(());
        };
        let count = self.temporaries.len().min(answer.temporaries as usize);
        let names = Names {
            section,
            temporaries: &self.temporaries[..count],
        };
        let accepted = Accepted {
            names,
            list: &self.list,
            checked: self.checked,
        };
        write!(out, "{accepted}")
    }

    // With the file's section, if it is not refused. The borrow checker does not cover a step that prints to a writer that its own
    // function has made, so this is a function over any writer.
    fn print_file<W: Write>(&self, out: &mut W, file: &[u8]) -> io::Result<()> {
        let printed = with_section(
            file,
            &mut |section: Section<'_>| self.print(out, Some(section)),
        );
        match printed {
            Ok(printed) => printed,
            Err(_) => self.print(out, None),
        }
    }
}

// A section can have more actions than there is room for: docs/DECISIONS.md says how many.
fn print_file(rt: &(impl Files + Print + AllocGlobal), path: &[u8]) -> Result<(), Problem> {
    let file = read_section(rt, path)?;
    let listing = Listing::new(rt.alloc(), &file)?;
    if listing.is_list_full() {
        return Err(Problem::ListFull);
    }
    let mut out = BufWriter::new(rt.alloc(), io::writer(rt))?;
    listing.print_file(&mut out, &file)?;
    Ok(out.flush()?)
}

fn run(rt: &(impl Env + Files + Print + AllocGlobal)) -> Result<(), Problem> {
    match arguments(rt)?.as_slice() {
        [path] => print_file(rt, path),
        _ => Err(Problem::WrongCall),
    }
}

fn main(rt: HostRuntime) -> io::Result<()> {
    LISTING.ended(&rt, run(&rt))
}
