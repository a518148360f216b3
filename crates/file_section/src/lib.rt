// The section's stream: `read_stream` reads it strictly in sequence, with refusals 3 to 6 and a table of all that a later
// walk needs. The table is 3,344 numbers:
//   n            where the length byte of name n stands in the stream
//   1024 + name  0, or 1 + kind + 8 × index of the global of that name: kind 0 space, 1 register, 2 bit range, 3 table,
//                4 user op, 5 macro, 6 other symbol
//   2048 + name  0, or 1 + 2 × i for field i, 2 + 2 × i for subtable i
//   3072 + i     where the parameter count of macro i stands in the stream
//   3200 + i     the first ordinal of macro i's body
//   3328 + k     where list k begins: spaces, registers, bit ranges, tables, user ops, macros, other symbols, fields,
//                subtables, statements
//   3338         the first ordinal of the section's own statements
// The header stays in the stream, at its fixed offsets. A number becomes an index by `as`: both have 64 bits, and the library has
// no `From` between them.
#![tactic(auto)]

ghost use Rattle.std.specs.Prelude.{◌≡◌};
ghost use Rattle.std.specs.Int.NonZero.{non_zero_u64_get};
ghost use Rattle.codes.specs.Refusals.{number, number_or_zero};
ghost use Rattle.file_section.specs.Stream.{OfStream, statements, answer, read_stream};
ghost use Rattle.file_section.specs.Names.{reading};
ghost use Rattle.file_syntax.specs.Reads.{to_cursor};

use codes::refusal::Refusal;
use codes::table;
use file_syntax::cursor::{
    Cursor, MALFORMED, NAMES_NOTHING, OUTSIDE_LIMIT, Refused, Source, place_of,
};
use file_syntax::statements::body;
use header::header;
use lists::lists;
use names::{low, names};
use zeros::tail;

mod chains;
mod header;
mod lists;
mod names;
mod zeros;

// The section's own statements, and the end.
#[tactic(auto, unfolding(crate::specs::Stream::statements))]
fn own_statements(
    stream: &[u8],
    so_far: Result<Cursor, Refused>,
    table: &mut [u16],
) -> Result<Cursor, Refused>
    ensures { reading (to_cursor result) table.new ≡ statements stream.now (reading (to_cursor so_far) table.old) }
{
    access::put(table, table::STATEMENTS, low(place_of(so_far)));
    let count = access::u16_at(stream, codes::header::STATEMENTS);
    tail(stream, body(&Source::new(stream), count, so_far))
}

// The refusal that the number of a refused stream names.
fn refusal_of(refused: Refused) -> Refusal
    requires { OfStream (non_zero_u64_get refused.refusal) }
    ensures { number result ≡ non_zero_u64_get refused.refusal }
{
    match u64::from(refused) {
        MALFORMED => Refusal::Malformed,
        OUTSIDE_LIMIT => Refusal::OutsideLimit,
        NAMES_NOTHING => Refusal::NamesNothing,
        _ => Refusal::SpelledTwice,
    }
}

// The refusal of a stream, if there is one, and the table.
#[tactic(auto, using(crate::proofs::HeaderLaws::few), unfolding(crate::specs::Stream::read_stream))]
pub fn read_stream(stream: &[u8], table: &mut [u16; table::LENGTH]) -> Result<(), Refusal>
    ensures { answer (number_or_zero result) table.new ≡ read_stream stream.now table.old }
{
    let head = header(stream);
    if let Err(refused) = head {
        return Err(refusal_of(refused));
    }
    let count = access::u16_at(stream, codes::header::NAMES) as usize;
    let named = names(stream, count, head, table);
    let listed = lists(stream, named, table);
    match own_statements(stream, listed, table) {
        Ok(_) => Ok(()),
        Err(refused) => Err(refusal_of(refused)),
    }
}
