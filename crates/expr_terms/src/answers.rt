// What resolving an expression, or an operand, gives, and a position further on.
ghost use Rattle.std.specs.Prelude.{◌≡◌};
ghost use Rattle.expr_terms.specs.Answers.{given, after};

use codes::NONE;
use list_pushes::push::State;

// What an expression is resolved to, or read into: where it ends, what it is, and the state then. The place comes first: so the
// value begins on a boundary of 16 bytes, which makes copies of it faster.
#[derive(Clone, Copy)]
pub struct Resolved<T> {
    pub next: usize,
    pub value: T,
    pub state: State,
}

// A number of two bytes that may be missing, as the file has it.
#[tactic(auto, unfolding(crate::specs::Answers::given))]
pub fn given(number: u64) -> Option<u64>
    ensures { result ≡ given number }
{
    if number == NONE { None } else { Some(number) }
}

// A position so many bytes on; a stream has fewer than 65,536.
#[tactic(auto, unfolding(crate::specs::Answers::after))]
pub fn after(pos: usize, count: usize) -> usize
    ensures { result ≡ after pos count }
{
    if pos < 65536 && count < 65536 {
        return pos + count;
    }
    pos
}
