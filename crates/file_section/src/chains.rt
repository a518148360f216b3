// Chains of the names whose spellings have the same hash: of 1,280 numbers the one at a name's index is 1 + the name before it on
// its chain, and the one at 1,024 + a hash is 1 + the last name that has it; 0 for none. Indices in fixed memory, since the library
// lends no heap. `Linked` and `Hashed` are asked of functions and are no invariants of a type: they speak of the stream and of
// the table too, which others hold.
ghost use Rattle.std.specs.Prelude.{◌≡◌, ◌+◌, ◌<◌, get_or};
ghost use Rattle.file_section.specs.Chains.{key, spread, Hashed, link};

use crate::names::low;
use access::inside::four;

// Where the last names of the chains stand, and how many numbers there are.
pub const LAST: usize = 1024;

pub const CHAINS: usize = 1280;

// What the hash of the name at a place is made of: the four bytes up to its last letter (of three letters, with the length byte),
// or of a name of fewer letters its length, first letter and last letter. A name whose last letter is 0, as that of one is
// which the stream's end cuts, is taken like a short one, so that the four bytes always lie inside the stream.
#[tactic(auto, using(crate::proofs::ChainLaws::key_laws))]
fn key(stream: &[u8], at: usize) -> u64
    ensures { (result ≡ key stream.now at) × (result < 4294967296) × (get_or stream.now at 0 < 256) }
{
    let l = access::byte(stream, at, 0) as usize;
    let z = access::byte(stream, at, l);
    if (l < 3) | (z == 0) {
        return access::u16_at(stream, at) + 65536 * z;
    }
    four(stream, at + (l - 3))
}

#[tactic(auto, unfolding(crate::specs::Chains::spread))]
fn spread(word: u64) -> usize
    requires { word < 4294967296 }
    ensures { (result ≡ spread word) × (result < 256) }
{
    (word * 2654435761 / 16777216 % 256) as usize
}

#[tactic(auto, using(crate::proofs::ChainLaws::hash_law))]
pub fn hash(stream: &[u8], at: usize) -> usize
    ensures { Hashed stream.now at result }
{
    spread(key(stream, at))
}

// A name put on the chain of its hash.
#[tactic(auto, using(crate::proofs::ChainLaws::link_law))]
pub fn link(chain: usize, index: usize, chains: &mut [u16])
    requires { (chain < 256) × (index < 1024) }
    ensures { chains.new ≡ link chain index chains.old }
{
    access::put(chains, index, access::get(chains, LAST + chain));
    access::put(chains, LAST + chain, low(index + 1));
}
