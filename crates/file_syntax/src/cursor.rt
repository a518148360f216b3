// A cursor over the stream, and the fields that it reads. Each reader gives the cursor behind its field or says where and why
// the stream is refused; a reading that is refused it gives back as it is, so that the first position that is wrong gives the
// refusal. The stream stands beside the cursor: with the stream in it, each promise would have to say of the cursor answered that
// its stream is still the same. The readers are compiled into their callers, by which a cursor that is known not to be refused
// stays in registers: without that reading takes a twelfth longer.
ghost use Rattle.std.specs.Prelude.{◌≡◌, ◌+◌, ◌≤◌, ℕ, List, length, get_or};
ghost use Rattle.access.specs.Le.{le16};
ghost use Rattle.std.specs.Int.NonZero.{non_zero_u64_get};
ghost use Rattle.file_syntax.specs.Cursors.{refuse, u8, u16, u16or, u8_is_number, u16_is_number, skip, code, small_count, name, name_or, size, size_or, bits};
ghost use Rattle.file_syntax.specs.Cursors as words;
ghost use Rattle.file_syntax.specs.Reads.{good, refusal_named, to_cursor};

use access::inside::two;
use codes::limit::SIZES;
use codes::refusal::Refusal;
use codes::{NONE, header};
use std::num::NonZero;

// First bits and bit counts are below this.
const BITS: u64 = 8193;

// The numbers of the four refusals of a stream.
pub const MALFORMED: u64 = Refusal::Malformed as u64;

pub const OUTSIDE_LIMIT: u64 = Refusal::OutsideLimit as u64;

pub const NAMES_NOTHING: u64 = Refusal::NamesNothing as u64;

pub const SPELLED_TWICE: u64 = Refusal::SpelledTwice as u64;

// A stream, and how many names it has: an index of a name is below that.
#[derive(Clone, Copy)]
pub struct Source<'a> {
    pub stream: &'a [u8],
    pub names: u64,
}

impl<'a> Source<'a> {
    // The header, which stands at the stream's start, says how many names there are.
    pub fn new(stream: &'a [u8]) -> Source<'a>
        ensures stream { result.stream.now ≡ stream.now }
        ensures names { result.names ≡ le16 stream.now 2 }
    {
        Source {
            stream,
            names: access::u16_at(stream, header::NAMES),
        }
    }
}

// Where the reading is, and the number read last.
#[derive(Clone, Copy)]
pub struct Cursor {
    pub at: usize,
    pub val: u64,
}

// A reading that is refused: where it stands, the number of the refusal, and the number read last, which a reader that refuses
// makes 0. The refusal is a number, since what the readers promise holds of any, and a `Refusal` would ask more. With the last two
// the other way round reading takes an eighth longer.
#[derive(Clone, Copy)]
pub struct Refused {
    pub at: usize,
    pub refusal: NonZero<u64>,
    pub val: u64,
}

// Where a reading stands, refused or not.
pub fn place_of(reading: Result<Cursor, Refused>) -> usize
    ensures { result ≡ (to_cursor reading).at }
{
    match reading {
        Ok(cursor) => cursor.at,
        Err(refused) => refused.at,
    }
}

// The number read last, 0 once a reader refuses.
pub fn last_number(reading: Result<Cursor, Refused>) -> u64
    ensures { result ≡ (to_cursor reading).val }
{
    match reading {
        Ok(cursor) => cursor.val,
        Err(refused) => refused.val,
    }
}

// The reading refused where it stands; 0 is no refusal.
#[tactic(auto, using(crate::proofs::RefusedLaws::passing), unfolding(crate::specs::Cursors::refuse))]
#[inline(always)]
pub fn refuse(refusal: u64, reading: Result<Cursor, Refused>) -> Result<Cursor, Refused>
    ensures { to_cursor result ≡ refuse refusal (to_cursor reading) }
{
    let at = reading?.at;
    match NonZero::<u64>::new(refusal) {
        Some(refusal) => Err(Refused {
            at,
            val: 0,
            refusal,
        }),
        None => Ok(Cursor { at, val: 0 }),
    }
}

// A number of one byte or of two, as the stream has it.
pub trait Field {
    // The reader of the words, how many bytes it takes, and what they say.
    ghost word: { List ℕ → ℕ → ℕ → words.Cursor → words.Cursor };

    ghost bytes: { ℕ };

    ghost value: { List ℕ → ℕ → ℕ };

    ghost is_number: { (s : List ℕ) (lim k : ℕ) (c : words.Cursor) → word s lim k c ≡ words.number (value s c.at) bytes (length s) lim k c };

    fn bytes() -> usize
        ensures { result ≡ bytes };

    fn value(stream: &[u8], at: usize) -> u64
        requires { at + bytes ≤ length stream.now }
        ensures { result ≡ value stream.now at };
}

impl Field for u8 {
    ghost word = { u8 };

    ghost bytes = { 1 };

    ghost value = { λ s p. get_or s p 0 };

    ghost is_number = { u8_is_number };

    fn bytes() -> usize {
        1
    }

    fn value(stream: &[u8], at: usize) -> u64 {
        u64::from(stream[at])
    }
}

impl Field for u16 {
    ghost word = { u16 };

    ghost bytes = { 2 };

    ghost value = { le16 };

    ghost is_number = { u16_is_number };

    fn bytes() -> usize {
        2
    }

    fn value(stream: &[u8], at: usize) -> u64 {
        two(stream, at)
    }
}

// A number below the limit, of as many bytes as its type has.
#[tactic(auto, using(crate::proofs::RefusedLaws::passing), unfolding(crate::specs::Cursors::number))]
#[inline(always)]
pub fn below<N: Field>(
    stream: &[u8],
    limit: u64,
    refusal: u64,
    reading: Result<Cursor, Refused>,
) -> Result<Cursor, Refused>
    ensures { to_cursor result ≡ N.word stream.now limit refusal (to_cursor reading) }
{
    below_at::<N>(stream, limit, refusal, reading?)
}

// The same for a reading that is not refused, of the cursor alone.
#[tactic(auto, unfolding(crate::specs::Cursors::number, crate::specs::Cursors::refuse))]
fn below_at<N: Field>(
    stream: &[u8],
    limit: u64,
    refusal: u64,
    cursor: Cursor,
) -> Result<Cursor, Refused>
    ensures { to_cursor result ≡ N.word stream.now limit refusal (good cursor) }
{
    let at = cursor.at;
    if at > stream.len() || stream.len() - at < N::bytes() {
        return refuse(MALFORMED, Ok(cursor));
    }
    let value = N::value(stream, at);
    if value >= limit {
        return refuse(refusal, Ok(cursor));
    }
    Ok(Cursor {
        at: at + N::bytes(),
        val: value,
    })
}

// The same, or 65,535, which stands for absent; the reader only checks the file, so it makes no Option of it.
#[tactic(auto, unfolding(crate::specs::Cursors::u16or, crate::specs::Cursors::u16))]
#[inline(always)]
pub fn u16_or(
    stream: &[u8],
    limit: u64,
    refusal: u64,
    reading: Result<Cursor, Refused>,
) -> Result<Cursor, Refused>
    ensures { to_cursor result ≡ u16or stream.now limit refusal (to_cursor reading) }
{
    if access::u16_at(stream, place_of(reading)) == NONE {
        return below::<u16>(stream, 65536, refusal, reading);
    }
    below::<u16>(stream, limit, refusal, reading)
}

#[tactic(auto, using(crate::proofs::RefusedLaws::passing), unfolding(crate::specs::Cursors::skip, crate::specs::Cursors::number, crate::specs::Cursors::refuse))]
#[inline(always)]
pub fn skip(
    stream: &[u8],
    count: usize,
    reading: Result<Cursor, Refused>,
) -> Result<Cursor, Refused>
    ensures { to_cursor result ≡ skip stream.now count (to_cursor reading) }
{
    let at = reading?.at;
    if at > stream.len() {
        return refuse(MALFORMED, reading);
    }
    if stream.len() - at < count {
        return refuse(MALFORMED, reading);
    }
    Ok(Cursor {
        at: at + count,
        val: 0,
    })
}

// One of so many codes.
#[inline(always)]
pub fn code(stream: &[u8], count: u64, reading: Result<Cursor, Refused>) -> Result<Cursor, Refused>
    ensures { to_cursor result ≡ code stream.now count (to_cursor reading) }
{
    below::<u8>(stream, count, MALFORMED, reading)
}

// A count of arguments or parameters.
#[inline(always)]
pub fn small_count(stream: &[u8], reading: Result<Cursor, Refused>) -> Result<Cursor, Refused>
    ensures { to_cursor result ≡ small_count stream.now (to_cursor reading) }
{
    below::<u8>(stream, 9, OUTSIDE_LIMIT, reading)
}

// One of the names.
#[inline(always)]
pub fn name(source: &Source<'_>, reading: Result<Cursor, Refused>) -> Result<Cursor, Refused>
    ensures { to_cursor result ≡ name source.entry.now.stream.now source.entry.now.names (to_cursor reading) }
{
    below::<u16>(source.stream, source.names, NAMES_NOTHING, reading)
}

#[inline(always)]
pub fn name_or(source: &Source<'_>, reading: Result<Cursor, Refused>) -> Result<Cursor, Refused>
    ensures { to_cursor result ≡ name_or source.entry.now.stream.now source.entry.now.names (to_cursor reading) }
{
    u16_or(source.stream, source.names, NAMES_NOTHING, reading)
}

#[inline(always)]
pub fn size(stream: &[u8], reading: Result<Cursor, Refused>) -> Result<Cursor, Refused>
    ensures { to_cursor result ≡ size stream.now (to_cursor reading) }
{
    below::<u16>(stream, SIZES, OUTSIDE_LIMIT, reading)
}

#[inline(always)]
pub fn size_or(stream: &[u8], reading: Result<Cursor, Refused>) -> Result<Cursor, Refused>
    ensures { to_cursor result ≡ size_or stream.now (to_cursor reading) }
{
    u16_or(stream, SIZES, OUTSIDE_LIMIT, reading)
}

// A first bit and a bit count.
#[inline(always)]
pub fn bits(stream: &[u8], reading: Result<Cursor, Refused>) -> Result<Cursor, Refused>
    ensures { to_cursor result ≡ bits stream.now (to_cursor reading) }
{
    let first = below::<u16>(stream, BITS, OUTSIDE_LIMIT, reading);
    below::<u16>(stream, BITS, OUTSIDE_LIMIT, first)
}

impl From<Refused> for u64 {
    ghost from_gives = { λ refused number. number ≡ non_zero_u64_get refused.refusal };

    fn from(refused: Refused) -> u64 {
        refused.refusal.get()
    }
}

// A number that no refusal has is taken for that of a malformed file; no reader refuses by such a number, unless its caller
// gives it.
impl From<Refused> for Refusal {
    ghost from_gives = { λ refused refusal. refusal ≡ refusal_named (non_zero_u64_get refused.refusal) };

    fn from(refused: Refused) -> Refusal {
        Refusal::numbered(u64::from(refused)).unwrap_or(Refusal::Malformed)
    }
}
