// The small numbers of a scope. They stand in its list behind the slots of its parameters, ten bits each and six to a word:
// for each name one of its local, and then for each name one of its label. So a scope is a fixed number of words on the stack,
// since there is no heap; an index or a number in it is one of these ten bits, 0 where there is none.
ghost use Rattle.std.specs.Prelude.{◌≡◌, ◌%◌, ◌<◌};
ghost use Rattle.expr_scope.specs.Smalls.{with_small, small, put_small};

// Where the first word of small numbers stands.
const FIRST: usize = 64;

// The numbers of labels stand behind those of locals.
pub const LABELS: usize = 1024;

// The words of a scope: 8 slots of 8, and 342 of small numbers.
pub const SCOPE_WORDS: usize = 406;

#[tactic(auto, unfolding(crate::specs::Smalls::small, crate::specs::Smalls::small_of, crate::specs::Smalls::unit))]
pub fn small(scope: &[u64], index: usize) -> u64
    ensures { (result ≡ small scope.now index) × (result < 1024) }
{
    let word = access::get(scope, FIRST + index / 6);
    (word >> 10 * (index % 6) as u64) % 1024
}

// The word with another number at the place of an index.
#[tactic(auto, using(crate::proofs::SmallLaws::small_laws))]
fn with_small(word: u64, index: usize, number: u64) -> u64
    ensures { result ≡ with_small word (index % 6) number }
{
    let place = 10 * (index % 6) as u64;
    let old = (word >> place) % 1024;
    word - (old << place) + (number % 1024 << place)
}

#[tactic(auto, unfolding(crate::specs::Smalls::put_small))]
pub fn put_small(scope: &mut [u64], index: usize, number: u64)
    ensures { scope.new ≡ put_small scope.old index number }
{
    let at = FIRST + index / 6;
    let word = access::get(scope, at);
    access::put(scope, at, with_small(word, index, number));
}
