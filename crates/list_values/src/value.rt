// A value and its two words in a list: its number, and kind + 256 × offset + 2^24 × size. Reads past a list's end are 0, and
// writes there change nothing. A position and the index of a value after it are two parameters, here and above: the position,
// an action's or a slot's, stays, while the index is another at each call.
ghost use Rattle.std.specs.Prelude.{◌≡◌};
ghost use Rattle.list_values.specs.Outcomes.{to_slice};
ghost use Rattle.list_values.specs.Values.{local, with_size, absent, no_output, slice_bytes, word, value_at, put_value, put_size, zero_words, place};

// The element at an index after a position, and one put there.
pub use access::{get_in as get, put_in as put};
use codes::action::{NO_OUTPUT, SIZE_PLACE};
use codes::refusal::Refusal;
use codes::{NONE, action};

// Where an action's output and first two inputs stand among its words. The index of a value is a byte, so that its second word
// has an index too; these are below 32, so the casts lose nothing.
pub const OUTPUT: u8 = action::OUTPUT as u8;

pub const INPUT_0: u8 = action::INPUT_0 as u8;

pub const INPUT_1: u8 = action::INPUT_1 as u8;

// Actions are numbered below the one from a position below the other, so that no position overflows.
const INDEX_BOUND: usize = 700000000000000000;

const BASE_BOUND: usize = 4096;

// The greatest offset that a value's second word holds.
const LAST_OFFSET: u64 = 65535;

// Kinds are 0 to 7 in the order of `Local`; a size of 65,535 is none. They stay numbers, since a value is read from the words of
// a lent list, which may hold any, and written back to them.
#[derive(Clone, Copy)]
pub struct Value {
    pub kind: u64,
    pub number: u64,
    pub offset: u64,
    pub size: u64,
}

// A value at offset 0 with no size of its own.
pub fn local(kind: u64, number: u64) -> Value
    ensures { result ≡ local kind number }
{
    Value {
        kind,
        number,
        offset: 0,
        size: NONE,
    }
}

pub fn with_size(value: Value, size: u64) -> Value
    ensures { result ≡ with_size size value }
{
    Value { size, ..value }
}

// What stands for an operand that is not there: both its words are 0. It is a value and no Option, since what is written is these
// two words in either case.
pub fn absent() -> Value
    ensures { result ≡ absent }
{
    Value {
        kind: 0,
        number: 0,
        offset: 0,
        size: 0,
    }
}

// The output of an Op that has none: 0 and 255.
pub fn no_output() -> Value
    ensures { result ≡ no_output }
{
    Value {
        kind: NO_OUTPUT,
        ..absent()
    }
}

// So many bytes of a value, from a byte on, unless their offset passes 65,535.
#[tactic(auto, unfolding(crate::specs::Values::slice_bytes))]
pub fn slice_bytes(value: Value, more: u64, size: u64) -> Result<Value, Refusal>
    ensures { to_slice result ≡ slice_bytes value more size }
{
    if value.offset <= LAST_OFFSET && more <= LAST_OFFSET - value.offset {
        return Ok(Value {
            offset: value.offset + more,
            size,
            ..value
        });
    }
    Err(Refusal::OffsetTooFar)
}

// The second word.
#[tactic(auto, unfolding(crate::specs::Values::word))]
pub fn word(value: Value) -> u64
    ensures { result ≡ word value }
{
    value.kind % 256 + value.offset % 65536 * 256 + value.size % 65536 * SIZE_PLACE
}

// The value whose first word stands at an index after a position.
#[tactic(auto, unfolding(crate::specs::Values::value_at, crate::specs::Values::value_of))]
pub fn value_at(list: &[u64], at: usize, index: u8) -> Value
    ensures { result ≡ value_at list.now at index }
{
    let w = get(list, at, usize::from(index) + 1);
    Value {
        kind: w % 256,
        number: get(list, at, usize::from(index)),
        offset: w / 256 % 65536,
        size: w / SIZE_PLACE % 65536,
    }
}

#[tactic(auto, unfolding(crate::specs::Values::put_value))]
pub fn put_value(list: &mut [u64], at: usize, index: u8, value: Value)
    ensures { list.new ≡ put_value list.old at index value }
{
    put(list, at, usize::from(index), value.number);
    put(list, at, usize::from(index) + 1, word(value));
}

#[tactic(auto, unfolding(crate::specs::Values::put_size))]
pub fn put_size(list: &mut [u64], at: usize, index: u8, size: u64)
    ensures { list.new ≡ put_size list.old at index size }
{
    let w = get(list, at, usize::from(index) + 1);
    put(
        list,
        at,
        usize::from(index) + 1,
        w % SIZE_PLACE + size % 65536 * SIZE_PLACE,
    );
}

// The words of an action from one of them on are made 0. By an index, since those past the list's end are none, as with `put`.
#[tactic(auto, using(access::proofs::LoopLaws::run_again, access::proofs::LoopLaws::run_end), unfolding(crate::specs::Values::zero_words))]
pub fn zero_words(list: &mut [u64], at: usize, from: usize)
    ensures { list.new ≡ zero_words list.old at from }
{
    for i in from..action::WORDS {
        put(list, at, i, 0);
    }
}

// Actions one behind the other: the position of the first, and how many they are.
#[derive(Clone, Copy)]
pub struct Span {
    pub base: usize,
    pub count: usize,
}

// Where the action of an index stands in a list whose first is at a position.
#[tactic(auto, unfolding(crate::specs::Values::place))]
pub fn place(base: usize, index: usize) -> usize
    ensures { result ≡ place base index }
{
    if base < BASE_BOUND && index < INDEX_BOUND {
        return base + index * action::WORDS;
    }
    0
}
