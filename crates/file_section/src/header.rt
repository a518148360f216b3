// The header: rule set, counts, default space and the four names, each a u16 at its fixed offset.
ghost use Rattle.std.specs.Prelude.{◌≡◌};
ghost use Rattle.file_section.specs.Headers.{global_counts, counts, roles, header};
ghost use Rattle.file_syntax.specs.Cursors.{u16};
ghost use Rattle.file_syntax.specs.Reads.{good, to_cursor};

use codes::limit::{MACROS, NAMES, STATEMENTS};
use file_syntax::cursor::{
    Cursor, NAMES_NOTHING, OUTSIDE_LIMIT, Refused, Source, below, name, u16_or,
};

// The counts are below these: of names, as of registers, bit ranges and other symbols; of tables, as of user ops.
const RULE_SETS: u64 = 1;

const NAME_COUNTS: u64 = NAMES + 1;

const SPACES: u64 = 9;

const TABLES: u64 = 257;

const MACRO_COUNTS: u64 = MACROS + 1;

const FIELDS: u64 = 65;

const SUBTABLES: u64 = 33;

// A count, which is below the limit. The counts are read a line each, whose name says which of them it is: a loop over the
// limits would have no names.
fn count(stream: &[u8], limit: u64, cursor: Cursor) -> Result<Cursor, Refused>
    ensures { to_cursor result ≡ u16 stream.now limit 4 (good cursor) }
{
    below::<u16>(stream, limit, OUTSIDE_LIMIT, Ok(cursor))
}

// Rule set, names and the counts of the globals.
#[tactic(auto, using(crate::proofs::RefusedLaws::passing), unfolding(crate::specs::Headers::global_counts))]
fn global_counts(stream: &[u8], cursor: Cursor) -> Result<Cursor, Refused>
    ensures { to_cursor result ≡ global_counts stream.now (good cursor) }
{
    let rule_set = count(stream, RULE_SETS, cursor)?;
    let names = count(stream, NAME_COUNTS, rule_set)?;
    let spaces = count(stream, SPACES, names)?;
    let registers = count(stream, NAME_COUNTS, spaces)?;
    let bit_ranges = count(stream, NAME_COUNTS, registers)?;
    let tables = count(stream, TABLES, bit_ranges)?;
    let user_ops = count(stream, TABLES, tables)?;
    let macros = count(stream, MACRO_COUNTS, user_ops)?;
    count(stream, NAME_COUNTS, macros)
}

// The counts of fields, subtables and statements.
#[tactic(auto, using(crate::proofs::RefusedLaws::passing), unfolding(crate::specs::Headers::counts))]
fn counts(stream: &[u8], cursor: Cursor) -> Result<Cursor, Refused>
    ensures { to_cursor result ≡ counts stream.now (good cursor) }
{
    let fields = count(stream, FIELDS, cursor)?;
    let subtables = count(stream, SUBTABLES, fields)?;
    count(stream, STATEMENTS, subtables)
}

// The default space, and the names of inst_start, inst_next, const and the delay slot.
#[tactic(auto, using(crate::proofs::RefusedLaws::passing), unfolding(crate::specs::Headers::roles))]
fn roles(stream: &[u8], cursor: Cursor) -> Result<Cursor, Refused>
    ensures { to_cursor result ≡ roles stream.now (good cursor) }
{
    let source = Source::new(stream);
    let spaces = access::u16_at(stream, codes::header::SPACES);
    let default_space = u16_or(stream, spaces, NAMES_NOTHING, Ok(cursor))?;
    let inst_start = name(&source, Ok(default_space))?;
    let inst_next = name(&source, Ok(inst_start))?;
    let constant = name(&source, Ok(inst_next))?;
    name(&source, Ok(constant))
}

// Not compiled into what reads the rest, which is faster without it.
#[tactic(auto, using(crate::proofs::RefusedLaws::passing), unfolding(crate::specs::Headers::header))]
#[inline(never)]
pub fn header(stream: &[u8]) -> Result<Cursor, Refused>
    ensures { to_cursor result ≡ header stream.now }
{
    let start = Cursor { at: 0, val: 0 };
    let globals = global_counts(stream, start)?;
    roles(stream, counts(stream, globals)?)
}
