// The list of names. The table keeps where the length byte of each stands; a spelling that stands there already is found on
// the chain of its hash. The stream, the reading so far, the table and the chains stay parameters, for the reason in lists.rt.
ghost use Rattle.std.specs.Prelude.{◌≡◌, ◌+◌, ◌%◌, ◌≤◌, ◌<◌};
ghost use Rattle.file_section.specs.Names.{reading, rest_alike, alike, known, spelling, name_at, names};
ghost use Rattle.file_section.specs.Chains.{Hashed, Linked};
ghost use Rattle.file_syntax.specs.Reads.{to_cursor};

use crate::chains::{CHAINS, LAST, hash, link};
use file_syntax::cursor::{
    Cursor, OUTSIDE_LIMIT, Refused, SPELLED_TWICE, below, place_of, refuse, skip,
};

// A name has fewer letters than this.
const LETTERS: u64 = 25;

// The bytes from the second up to a count, of two places: by their numbers and not as slices, since a place may lie past the end.
fn rest_alike(stream: &[u8], place: usize, other: usize, count: u64) -> bool
    requires { count < 256 }
    ensures { result ≡ rest_alike stream.now place other count }
{
    (2..count as usize + 1).all(|index| access::byte(stream, place, index)
        == access::byte(stream, other, index))
}

// Whether the names at two places, each a length byte and its bytes, are spelled alike.
#[tactic(auto, unfolding(crate::specs::Names::alike))]
fn alike(stream: &[u8], place: usize, other: usize) -> bool
    ensures { result ≡ alike stream.now place other }
{
    if access::u16_at(stream, place) != access::u16_at(stream, other) {
        return false;
    }
    rest_alike(stream, place, other, access::byte(stream, place, 0))
}

// A place in the stream, which has fewer than 65,536 bytes.
pub fn low(place: usize) -> u16
    ensures { result ≡ place % 65536 }
{
    (place % 65536) as u16
}

// Whether one of so many names is spelled as the one at a place, which belongs on that chain.
#[tactic(auto, using(crate::proofs::ChainLaws::known_laws))]
fn known(
    stream: &[u8],
    table: &[u16],
    chains: &[u16],
    at: usize,
    chain: usize,
    count: usize,
) -> bool
    requires { Linked stream.now table.now chains.now count × Hashed stream.now at chain }
    ensures { result ≡ known stream.now table.now at count }
{
    let mut j = usize::from(access::get(chains, LAST + chain));
    // No count of turns: a chain leads from name to name.
    while 0 < j {
        let i = j - 1;
        if alike(stream, at, usize::from(access::get(table, i))) {
            return true;
        }
        j = usize::from(access::get(chains, i));
    }
    false
}

// A name by its index: its length, 1 to 24, and its bytes.
#[tactic(auto, using(crate::proofs::RefusedLaws::passing), unfolding(crate::specs::Names::spelling, crate::specs::Names::letters))]
fn spelling(
    stream: &[u8],
    table: &[u16],
    chains: &[u16],
    index: usize,
    chain: usize,
    so_far: Result<Cursor, Refused>,
) -> Result<Cursor, Refused>
    requires { Linked stream.now table.now chains.now index × Hashed stream.now (to_cursor so_far).at chain }
    ensures { to_cursor result ≡ spelling stream.now table.now index (to_cursor so_far) }
{
    let start = so_far?;
    let l = below::<u8>(stream, LETTERS, OUTSIDE_LIMIT, Ok(start))?;
    if l.val == 0 {
        return refuse(OUTSIDE_LIMIT, Ok(l));
    }
    let end = skip(stream, l.val as usize, Ok(l))?;
    if known(stream, table, chains, start.at, chain, index) {
        return refuse(SPELLED_TWICE, Ok(end));
    }
    Ok(end)
}

// The hash of the name at another place, given that at the first: the same one in a stream of fewer than 65,536 bytes.
#[tactic(auto, using(crate::proofs::ChainLaws::hashed_same))]
fn hash_at(stream: &[u8], at: usize, chain: usize, other: usize) -> usize
    requires { Hashed stream.now at chain }
    ensures { Hashed stream.now other result }
{
    if at == other {
        chain
    } else {
        hash(stream, other)
    }
}

// A name by its index, and where it begins. Its chain goes by what the table then has there, so that nothing is asked of the
// table's length.
#[tactic(auto, using(crate::proofs::ChainLaws::name_laws))]
fn name_at(
    stream: &[u8],
    index: usize,
    so_far: Result<Cursor, Refused>,
    table: &mut [u16],
    chains: &mut [u16],
) -> Result<Cursor, Refused>
    requires { (index < 1024) × Linked stream.now table.old chains.old index }
    ensures { (reading (to_cursor result) table.new ≡ name_at stream.now index (reading (to_cursor so_far) table.old)) × Linked stream.now table.new chains.new (index + 1) }
{
    let at = place_of(so_far);
    let h = hash(stream, at);
    let spelled = spelling(stream, table, chains, index, h, so_far);
    access::put(table, index, low(at));
    let p = usize::from(access::get(table, index));
    link(hash_at(stream, at, h, p), index, chains);
    spelled
}

// The names, by chains that are empty at first.
#[tactic(auto, using(crate::proofs::ChainLaws::run_laws), unfolding(crate::specs::Names::names))]
fn chained(
    stream: &[u8],
    count: usize,
    so_far: Result<Cursor, Refused>,
    table: &mut [u16],
    chains: &mut [u16; CHAINS],
) -> Result<Cursor, Refused>
    requires { (count ≤ 1024) × Linked stream.now table.old chains.old 0 }
    ensures { reading (to_cursor result) table.new ≡ names stream.now count (reading (to_cursor so_far) table.old) }
{
    let mut so_far = so_far;
    // The count is the file's, and no slice is gone through.
    for i in 0..count {
        so_far = name_at(stream, i, so_far, table, chains);
    }
    so_far
}

pub fn names(
    stream: &[u8],
    count: usize,
    so_far: Result<Cursor, Refused>,
    table: &mut [u16],
) -> Result<Cursor, Refused>
    requires { count ≤ 1024 }
    ensures { reading (to_cursor result) table.new ≡ names stream.now count (reading (to_cursor so_far) table.old) }
{
    // On the stack, since the library lends no heap.
    let mut k = [0u16; CHAINS];
    chained(stream, count, so_far, table, &mut k)
}
