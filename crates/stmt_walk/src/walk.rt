// The state of the walk, and where a refusal stops it.
ghost use Rattle.std.specs.Prelude.{◌≡◌, Err};
ghost use Rattle.stmt_walk.specs.Outcomes.{to_walk, to_steps};
ghost use Rattle.stmt_walk.specs.Walks.{stop};

use expr_scope::scope::Access;
use list_pushes::push::State;

// What a section exports. Its kind: 0 nothing, 1 a value, 2 what a pointer refers to in RAM, 3 among the registers; then the
// value or the pointer, and the size of the access. The kind is a number: what `body` and those above it promise holds of a
// walk with any, and an enum would ask more.
#[derive(Clone, Copy)]
pub struct Export {
    pub kind: u64,
    pub to: Access,
}

// The walk's state above that of expressions: labels given, labels placed, statements begun, the export. A step is given the
// walk as it stood when its statement began, and beside it the state as expressions left it since: the state is put into the
// walk once, where the statement ends, and a refusal names the statement by the walk alone.
#[derive(Clone, Copy)]
pub struct Walk {
    pub st: State,
    pub labels: u64,
    pub placed: u64,
    pub statements: u64,
    pub export: Export,
}

// The number of a refusal, and the ordinal of the statement that had begun. What `stop` promises holds of any number, and a
// `Refusal` would ask more.
#[derive(Clone, Copy)]
pub struct Stopped {
    pub refusal: u64,
    pub ordinal: u64,
}

// A refusal, at the statement that has begun.
pub fn stop(walk: Walk, refusal: u64) -> Stopped
    ensures { to_steps (Err result) ≡ stop refusal (to_walk walk) }
{
    Stopped {
        refusal,
        ordinal: walk.st.sizing.begun,
    }
}
