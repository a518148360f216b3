// A statement by its ordinal: its kind, and the macro in whose body it stands. Macro bodies have the lower ordinals.
use crate::names::Name;
use codes::limit::MACROS;
use codes::{header, statement, table};
use file_syntax::cursor::{Cursor, Source, place_of};
use list_values::section::Section;
use listing_names::names::name_of;
use std::fmt;

#[derive(Clone, Copy)]
enum Kind {
    Unimplemented,
    Export,
    Local,
    LocalAssignment,
    Build,
    Copy,
    Store,
    Call,
    Branch,
    CondBranch,
    Label,
}

// The reader passes no code above a label's, so that each number has an answer.
impl From<u64> for Kind {
    fn from(code: u64) -> Kind {
        match code {
            statement::UNIMPLEMENTED => Kind::Unimplemented,
            statement::EXPORT => Kind::Export,
            statement::LOCAL => Kind::Local,
            statement::LOCAL_ASSIGNMENT => Kind::LocalAssignment,
            statement::BUILD => Kind::Build,
            statement::COPY => Kind::Copy,
            statement::STORE => Kind::Store,
            statement::CALL => Kind::Call,
            statement::BRANCH => Kind::Branch,
            statement::COND_BRANCH => Kind::CondBranch,
            _ => Kind::Label,
        }
    }
}

impl fmt::Display for Kind {
    fn fmt<W: fmt::Write>(&self, f: &mut fmt::Formatter<W>) -> fmt::Result {
        f.write_str(match self {
            Kind::Unimplemented => "unimplemented",
            Kind::Export => "an export",
            Kind::Local => "a local",
            Kind::LocalAssignment => "a local assignment",
            Kind::Build => "a build",
            Kind::Copy => "a copy",
            Kind::Store => "a store",
            Kind::Call => "a call",
            Kind::Branch => "a branch",
            Kind::CondBranch => "a conditional branch",
            Kind::Label => "a label",
        })
    }
}

// Where the statements among which one stands begin, their first ordinal, and the macro whose body they are.
#[derive(Clone, Copy)]
struct Body<'a> {
    at: usize,
    first: u64,
    of_macro: Option<Name<'a>>,
}

#[derive(Clone, Copy)]
pub(crate) struct Statement<'a> {
    ordinal: u64,
    kind: Kind,
    of_macro: Option<Name<'a>>,
}

// Where the statement stands that so many of those from a place on come before.
fn after(stream: &[u8], at: usize, count: u64) -> usize {
    let start = Ok(Cursor { at, val: 0 });
    place_of(file_syntax::statements::body(&Source::new(stream), count, start))
}

// The number that stands in the table at a place.
fn entry(section: Section<'_>, place: usize) -> u16 {
    let table = section.table;
    access::get(table, place)
}

// The last macro whose body begins at the ordinal or before.
fn macro_of(section: Section<'_>, ordinal: u64) -> usize {
    let table = section.table;
    let ordinals = &table[table::MACRO_ORDINALS..table::LISTS];
    let count = access::u16_at(section.stream, header::MACROS) as usize;
    ordinals[..count.min(ordinals.len())]
        .iter()
        .rposition(|first| u64::from(*first) <= ordinal)
        .unwrap_or(0)
}

// The body of a macro, whose parameter count stands behind its name.
fn macro_body<'a>(section: Section<'a>, index: usize) -> Body<'a> {
    let stream = section.stream;
    let index = index % MACROS as usize;
    // Not by the stage's `macro_at`, which promises no bound for a place that is added to.
    let at = usize::from(entry(section, table::MACROS + index));
    let parameters = access::byte(stream, at, 0) as usize;
    let name = name_of(section, access::u16_at(stream, at.saturating_sub(2)));
    Body {
        at: at + 3 + 2 * parameters,
        first: u64::from(entry(section, table::MACRO_ORDINALS + index)),
        of_macro: Some(Name(name)),
    }
}

fn body_of<'a>(section: Section<'a>, ordinal: u64) -> Body<'a> {
    let first = u64::from(entry(section, table::FIRST_ORDINAL));
    if ordinal < first {
        return macro_body(section, macro_of(section, ordinal));
    }
    Body {
        at: usize::from(entry(section, table::STATEMENTS)),
        first,
        of_macro: None,
    }
}

impl<'a> Statement<'a> {
    pub(crate) fn new(section: Section<'a>, ordinal: u64) -> Statement<'a> {
        let body = body_of(section, ordinal);
        let at = after(section.stream, body.at, ordinal.saturating_sub(body.first));
        Statement {
            ordinal,
            kind: Kind::from(access::byte(section.stream, at, 0)),
            of_macro: body.of_macro,
        }
    }
}

impl fmt::Display for Statement<'_> {
    fn fmt<W: fmt::Write>(&self, f: &mut fmt::Formatter<W>) -> fmt::Result {
        let Statement {
            ordinal,
            kind,
            of_macro,
        } = *self;
        write!(f, "at statement {ordinal}, {kind}")?;
        match of_macro {
            Some(name) => write!(f, " in macro {name}"),
            None => Ok(()),
        }
    }
}
