// The lists of entries. Each entry begins with its name, which the table marks, so that a second one is found there:
// globals from 1,024 on, fields and subtables from 2,048 on. The stream, the reading so far and the table are three parameters:
// a struct that held the table as `&mut` would need a clause more in each contract, that it still holds the same one.
ghost use Rattle.std.specs.Prelude.{◌≡◌, ◌<◌};
ghost use Rattle.codes.specs.Lists.{list_number};
ghost use Rattle.file_section.specs.Names.{reading};
ghost use Rattle.file_section.specs.Lists.{slot, stamp, mark, named, after, params, macro_head, noted, macro, entry, list, lists};
ghost use Rattle.file_syntax.specs.Reads.{good, to_cursor};

use crate::names::low;
use codes::limit::STATEMENTS;
use codes::list::List;
use codes::{header, table};
use file_syntax::cursor::{
    Cursor, NAMES_NOTHING, OUTSIDE_LIMIT, Refused, SPELLED_TWICE, Source, below, bits, code,
    last_number, name, place_of, refuse, size, size_or, small_count,
};
use file_syntax::statements::body;

// In the header's order.
const LISTS: [List; 9] = [
    List::Spaces,
    List::Registers,
    List::BitRanges,
    List::Tables,
    List::UserOps,
    List::Macros,
    List::Others,
    List::Fields,
    List::Subtables,
];

// Where a list marks a name.
#[tactic(auto, unfolding(crate::specs::Lists::slot))]
fn slot(which: List, name: u64) -> usize
    ensures { result ≡ slot (list_number which) name }
{
    let name = (name % 65536) as usize;
    match which {
        List::Fields | List::Subtables => table::LOCALS + name,
        _ => table::GLOBALS + name,
    }
}

// What a list marks the name of an entry with.
#[tactic(auto, unfolding(crate::specs::Lists::stamp))]
fn stamp(which: List, index: u16) -> u16
    ensures { result ≡ stamp (list_number which) index }
{
    let index = usize::from(index);
    let word = match which {
        List::Fields => 1 + 2 * index,
        List::Subtables => 2 + 2 * index,
        _ => 1 + usize::from(which) + 8 * index,
    };
    low(word)
}

#[tactic(auto, unfolding(crate::specs::Lists::mark))]
fn mark(at: usize, value: u16, cursor: Cursor, table: &mut [u16]) -> Result<Cursor, Refused>
    ensures { reading (to_cursor result) table.new ≡ mark at value (reading (good cursor) table.old) }
{
    if access::get(table, at) != 0 {
        return refuse(SPELLED_TWICE, Ok(cursor));
    }
    access::put(table, at, value);
    Ok(cursor)
}

// The name of an entry of a list.
#[tactic(auto, using(crate::proofs::RefusedLaws::passing), unfolding(crate::specs::Lists::named))]
fn named(
    which: List,
    stream: &[u8],
    index: u16,
    so_far: Result<Cursor, Refused>,
    table: &mut [u16],
) -> Result<Cursor, Refused>
    ensures { reading (to_cursor result) table.new ≡ named (list_number which) stream.now index (reading (to_cursor so_far) table.old) }
{
    let source = Source::new(stream);
    let found = name(&source, so_far)?;
    let place = slot(which, found.val);
    mark(place, stamp(which, index), found, table)
}

// What follows the name in an entry of a list that is no macro.
#[tactic(auto, using(crate::proofs::RefusedLaws::passing), unfolding(crate::specs::Lists::after, crate::specs::Lists::after_name, crate::specs::Lists::which_of))]
fn after(which: List, stream: &[u8], cursor: Cursor) -> Result<Cursor, Refused>
    ensures { to_cursor result ≡ after (list_number which) stream.now (good cursor) }
{
    match which {
        List::Spaces => size(stream, code(stream, 3, Ok(cursor))),
        List::Registers => size(stream, Ok(cursor)),
        List::BitRanges => {
            let registers = access::u16_at(stream, header::REGISTERS);
            bits(
                stream,
                below::<u16>(stream, registers, NAMES_NOTHING, Ok(cursor)),
            )
        }
        List::Tables | List::Fields => size_or(stream, Ok(cursor)),
        List::UserOps | List::Macros | List::Others => Ok(cursor),
        List::Subtables => {
            let tables = access::u16_at(stream, header::TABLES);
            below::<u16>(stream, tables, NAMES_NOTHING, Ok(cursor))
        }
    }
}

// As many names as the cursor's number says; no slice is gone through, and nothing is indexed by it.
#[tactic(auto, using(crate::proofs::ChainLaws::run_laws), unfolding(crate::specs::Lists::params, file_syntax::specs::Expressions::counted))]
fn params(source: &Source<'_>, cursor: Cursor) -> Result<Cursor, Refused>
    ensures { to_cursor result ≡ params source.entry.now.stream.now source.entry.now.names (good cursor) }
{
    let count = cursor.val;
    let mut cursor = cursor;
    for index in 0..count {
        cursor = name(source, Ok(cursor))?;
    }
    Ok(cursor)
}

// A macro's parameters and its count of statements.
#[tactic(auto, using(crate::proofs::RefusedLaws::passing), unfolding(crate::specs::Lists::macro_head))]
fn macro_head(source: &Source<'_>, so_far: Result<Cursor, Refused>) -> Result<Cursor, Refused>
    ensures { to_cursor result ≡ macro_head source.entry.now.stream.now source.entry.now.names (to_cursor so_far) }
{
    let counted = small_count(source.stream, so_far)?;
    let named = params(source, counted)?;
    below::<u16>(source.stream, STATEMENTS, OUTSIDE_LIMIT, Ok(named))
}

// Where a macro stands, its first ordinal, and the next free ordinal after its statements.
#[tactic(auto, unfolding(crate::specs::Lists::noted))]
fn note_macro(index: u16, at: usize, count: u64, table: &mut [u16])
    ensures { table.new ≡ noted index at count table.old }
{
    let index = usize::from(index);
    let first = access::get(table, table::FIRST_ORDINAL);
    access::put(table, table::MACROS + index, low(at));
    access::put(table, table::MACRO_ORDINALS + index, first);
    access::put(
        table,
        table::FIRST_ORDINAL,
        low(usize::from(first) + (count % 65536) as usize),
    );
}

#[tactic(auto, using(crate::proofs::RefusedLaws::passing, crate::proofs::ListLaws::macro_opened))]
fn macro_entry(
    source: &Source<'_>,
    index: u16,
    so_far: Result<Cursor, Refused>,
    table: &mut [u16],
) -> Result<Cursor, Refused>
    ensures { reading (to_cursor result) table.new ≡ macro source.entry.now.stream.now source.entry.now.names index (reading (to_cursor so_far) table.old) }
{
    let head = macro_head(source, so_far);
    note_macro(index, place_of(so_far), last_number(head), table);
    let begun = head?;
    body(source, begun.val, Ok(begun))
}

// An entry of a list, by its number there.
#[tactic(auto, using(crate::proofs::RefusedLaws::passing), unfolding(crate::specs::Lists::entry, crate::specs::Lists::rest_of))]
fn entry(
    which: List,
    stream: &[u8],
    index: u16,
    so_far: Result<Cursor, Refused>,
    table: &mut [u16],
) -> Result<Cursor, Refused>
    ensures { reading (to_cursor result) table.new ≡ entry (list_number which) stream.now index (reading (to_cursor so_far) table.old) }
{
    let marked = named(which, stream, index, so_far, table);
    if let List::Macros = which {
        return macro_entry(&Source::new(stream), index, marked, table);
    }
    after(which, stream, marked?)
}

// A list, whose count stands in the header.
#[tactic(auto, using(crate::proofs::ListLaws::list_laws))]
fn list(
    which: List,
    stream: &[u8],
    so_far: Result<Cursor, Refused>,
    table: &mut [u16],
) -> Result<Cursor, Refused>
    ensures { reading (to_cursor result) table.new ≡ list stream.now (list_number which) (reading (to_cursor so_far) table.old) }
{
    let place = usize::from(which);
    access::put(table, table::LISTS + place, low(place_of(so_far)));
    let count = low(access::u16_at(stream, header::SPACES + 2 * place) as usize);
    let mut so_far = so_far;
    // A refused entry goes on, since the table's promise says what the later ones leave in it too. The count is the file's, and
    // no slice is gone through.
    for index in 0..count {
        so_far = entry(which, stream, index, so_far, table);
    }
    so_far
}

// The nine lists from spaces to subtables.
#[tactic(auto, using(crate::proofs::ChainLaws::run_laws), unfolding(crate::specs::Lists::lists))]
pub fn lists(
    stream: &[u8],
    so_far: Result<Cursor, Refused>,
    table: &mut [u16],
) -> Result<Cursor, Refused>
    ensures { reading (to_cursor result) table.new ≡ lists stream.now (reading (to_cursor so_far) table.old) }
{
    let mut so_far = so_far;
    for &which in &LISTS {
        so_far = list(which, stream, so_far, table);
    }
    so_far
}
