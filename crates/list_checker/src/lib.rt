// The checker of an action list, whoever made it: each action by itself, and of the whole list that each label is placed at
// most once and that every subtable is built. An action is 24 words: its kind, operation, number and input count, the output
// and the inputs of two words each, and zeros. A value's words are its number, and its kind, offset and size in one.
// Kinds and operations stay numbers here: a list may hold any, and a rule holds for runs of them, which an enum would have to
// list one by one, twice. Words become indexes by `as`, which loses nothing: both have 64 bits.
#![tactic(auto)]

ghost use Rattle.std.specs.Prelude.{◌≡◌, ◌≤◌, false, replicate};
ghost use Rattle.std.specs.List.{list_all};
ghost use Rattle.definition.specs.Checker.{check};
ghost use Rattle.list_checker.specs.Action.{zeros, fits, inputs_fit, has_output, operation_fit, head_fit, action_fit};
ghost use Rattle.list_checker.specs.Sweep.{noted, note_label, note_build, all_marked, sweep};

use codes::action::{NO_OUTPUT, OUTPUT_WORD, SIZE_PLACE};
use codes::limit::SIZES;
use codes::{NONE, action, action_kind, operation, value_kind};

// The second words of inputs.
const INPUT_0_WORD: usize = action::INPUT_0 + 1;

const INPUT_1_WORD: usize = action::INPUT_1 + 1;

// Second words are below this.
const WORD_BOUND: u64 = 0x10000000000;

// A second word but for its kind, with no size and at offset 0.
const UNSIZED: u64 = 0xffff0000;

// The bounds of hints, labels, user ops and arguments behind the second, and the most inputs of an action.
const HINTS: u64 = 3;

const LABELS: u64 = 256;

const USER_OPS: u64 = 256;

const ARGS: u64 = 6;

const MOST_INPUTS: u64 = 8;

// How many subtables a sweep marks.
const SWEPT: u64 = 256;

// The words of an action, and the two of a value.
type Action = [u64; action::WORDS];

type Value = [u64; 2];

// What the section has: its temporaries and subtables, and the size of its pointers.
#[derive(Clone, Copy)]
struct Counts {
    temporaries: u64,
    subtables: u64,
    pointer: u64,
}

fn zeros(words: &[u64]) -> bool
    ensures { result ≡ zeros words.now }
{
    words.iter().all(|word| *word == 0)
}

// An operation without output has 0 and 255; StoreRegister, DelaySlot and Build have zeros.
#[tactic(auto, unfolding(crate::specs::Action::has_output))]
fn has_output(kind: u64, number: u64, word: u64) -> bool
    ensures { result ≡ has_output kind number word }
{
    match kind {
        action_kind::OP => (number != 0) | (word != NO_OUTPUT),
        action_kind::ADDRESS_OF..=action_kind::LOAD_REGISTER => true,
        _ => (number != 0) | (word != 0),
    }
}

impl Counts {
    // A value's number, by its kind; the size is at most 65535, which is none. An operation's values are sized.
    #[tactic(auto, unfolding(crate::specs::Action::value_fit, crate::specs::Action::number_fit))]
    fn value_fits(&self, value: &Value, sized: bool) -> bool
        ensures { result ≡ fits self.now.temporaries self.now.subtables sized value.now }
    {
        let [number, word] = *value;
        let right = (word < WORD_BOUND) & (!sized | (word / SIZE_PLACE != NONE));
        match word % 256 {
            value_kind::INST_START..=value_kind::INST_NEXT => right & (number == 0),
            value_kind::REGISTER..=value_kind::FIELD | value_kind::CONSTANT => right,
            value_kind::SUBTABLE..=value_kind::SUBTABLE_REF => right & (number < self.subtables),
            value_kind::PCODE_TMP => right & (number < self.temporaries),
            _ => false,
        }
    }

    fn values_fit(&self, values: &[Value], sized: bool) -> bool
        ensures { result ≡ list_all (fits self.now.temporaries self.now.subtables sized) values.now }
    {
        values.iter().all(|value| self.value_fits(value, sized))
    }

    // The inputs, at most 8, and zeros behind them.
    #[tactic(auto, using(crate::proofs::FitLaws::input_laws))]
    fn inputs_fit(&self, action: &Action, sized: bool) -> bool
        ensures { result ≡ inputs_fit self.now.temporaries self.now.subtables sized action.now }
    {
        if action[action::INPUT_COUNT] > MOST_INPUTS {
            return false;
        }
        let n = action[action::INPUT_COUNT] as usize;
        let (values, _) = action[action::INPUT_0..].as_chunks::<2>();
        let end = action::INPUT_0 + 2 * n;
        self.values_fit(&values[..n], sized) && zeros(&action[end..])
    }

    // An operation's input count, output and number, and the rule of its sizes.
    #[tactic(auto, unfolding(crate::specs::Action::operation_fit, crate::specs::Action::row_of, crate::specs::Action::row_fit))]
    fn operation_fits(&self, action: &Action, output: bool) -> bool
        ensures { result ≡ operation_fit self.now.pointer output action.now }
    {
        let number = action[action::NUMBER];
        let n = action[action::INPUT_COUNT];
        let in0 = action[INPUT_0_WORD] / SIZE_PLACE;
        let in1 = action[INPUT_1_WORD] / SIZE_PLACE;
        let out = action[OUTPUT_WORD] / SIZE_PLACE;
        let unary = (n == 1) & output & (number == 0);
        let binary = (n == 2) & output & (number == 0);
        let alike = binary & (in0 == in1);
        let pair = (n == 2) & !output;
        match action[action::OPERATION] {
            // Arithmetic and bits.
            operation::INT_MUL..=operation::INT_SUB
            | operation::FLOAT_DIV..=operation::FLOAT_SUB
            | operation::INT_AND..=operation::INT_OR => alike & (in0 == out),
            // Shifts: a count has any size.
            operation::INT_LEFT..=operation::INT_SIGNED_RIGHT => binary & (in0 == out),
            // Comparisons and carries.
            operation::INT_SIGNED_LESS..=operation::INT_NOT_EQUAL
            | operation::FLOAT_LESS..=operation::FLOAT_NOT_EQUAL
            | operation::INT_CARRY..=operation::INT_SIGNED_BORROW => alike & (out == 1),
            operation::BOOL_XOR..=operation::BOOL_OR => alike & (in0 == 1) & (out == 1),
            operation::BOOL_NOT => unary & (in0 == 1) & (out == 1),
            operation::INT_NOT..=operation::INT_NEGATE
            | operation::FLOAT_NEGATE..=operation::FLOAT_ROUND
            | operation::COPY => unary & (in0 == out),
            operation::FLOAT_IS_NAN => unary & (out == 1),
            // Extensions, conversions and counts of bits.
            operation::ZERO_EXTEND..=operation::SIGN_EXTEND
            | operation::FLOAT_TO_INT..=operation::INT_COUNT_LEADING_ZEROES => unary,
            operation::LOAD => unary & (in0 == self.pointer),
            operation::STORE => pair & (number == 0) & (in0 == self.pointer),
            // Its number is a hint, its target has any size.
            operation::BRANCH => pair & (number < HINTS) & (in0 == 1),
            operation::PCODE_BRANCH => pair & (number < LABELS) & (in0 == 1),
            operation::PCODE_LABEL => (n == 0) & !output & (number < LABELS),
            operation::PCODE_OP => (number < USER_OPS) & (!output | (n <= 2)),
            operation::ARG => (n == 1) & !output & (number < ARGS),
            operation::INVALID => (n == 0) & !output & (number == 0),
            _ => false,
        }
    }

    // The same of an action; only an Op has an operation. The base of an AddressOf is unsized at offset 0.
    #[tactic(auto, unfolding(crate::specs::Action::head_fit, crate::specs::Action::kind_fit))]
    fn head_fits(&self, action: &Action, output: bool) -> bool
        ensures { result ≡ head_fit self.now.subtables self.now.pointer output action.now }
    {
        let number = action[action::NUMBER];
        let n = action[action::INPUT_COUNT];
        let plain = action[action::OPERATION] == 0;
        match action[action::KIND] {
            action_kind::OP => self.operation_fits(action, output),
            action_kind::ADDRESS_OF => {
                plain & (number == 0) & (n == 1) & output & (action[INPUT_0_WORD] / 256 == UNSIZED)
            }
            action_kind::LOAD_REGISTER => plain & (number < SIZES) & (n == 1) & output,
            action_kind::STORE_REGISTER => plain & (number < SIZES) & (n == 2) & !output,
            action_kind::DELAY_SLOT => plain & (number == 0) & (n == 0) & !output,
            action_kind::BUILD => plain & (number < self.subtables) & (n == 0) & !output,
            _ => false,
        }
    }

    #[tactic(auto, unfolding(crate::specs::Action::action_fit, crate::specs::Action::output_there))]
    fn action_fits(&self, action: &Action) -> bool
        ensures { result ≡ action_fit self.now.temporaries self.now.subtables self.now.pointer action.now }
    {
        let sized = action[action::KIND] == action_kind::OP;
        let value = [action[action::OUTPUT], action[OUTPUT_WORD]];
        let output = has_output(action[action::KIND], value[0], value[1]);
        (!output | self.value_fits(&value, sized))
            & self.inputs_fit(action, sized)
            & self.head_fits(action, output)
    }

    // One sweep over the actions, with a table for labels and one for the subtables from a number on, 256 at most.
    #[tactic(auto, using(crate::proofs::SweepLaws::sweep_laws))]
    fn sweep(&self, actions: &[Action], base: u64) -> bool
        requires { base ≤ self.now.subtables }
        ensures { result ≡ sweep self.now.temporaries self.now.subtables self.now.pointer base actions.now (replicate 256 false) (replicate 256 false) }
    {
        // Fixed memory: the library has no heap.
        let mut seen = [false; LABELS as usize];
        let mut built = [false; SWEPT as usize];
        for action in actions {
            if !self.action_fits(action) || !note_label(action, &mut seen) {
                return false;
            }
            note_build(action, base, &mut built);
        }
        all_marked(&built, self.subtables - base)
    }
}

// Marks the label that a PcodeLabel places; false if it was marked before.
#[tactic(auto, unfolding(crate::specs::Sweep::note_label, crate::specs::Sweep::places_label))]
fn note_label(action: &Action, seen: &mut [bool]) -> bool
    ensures { noted result seen.new ≡ note_label action.now seen.old }
{
    let label = action[action::NUMBER] as usize;
    if action[action::KIND] != action_kind::OP
        || action[action::OPERATION] != operation::PCODE_LABEL
        || seen.len() <= label
    {
        return true;
    }
    let new = !seen[label];
    seen[label] = true;
    new
}

// Marks the subtable that a Build builds, counted from a number on.
#[tactic(auto, unfolding(crate::specs::Sweep::note_build))]
fn note_build(action: &Action, base: u64, built: &mut [bool])
    ensures { built.new ≡ note_build base action.now built.old }
{
    let number = action[action::NUMBER];
    if action[action::KIND] != action_kind::BUILD || number < base {
        return;
    }
    let place = (number - base) as usize;
    if place < built.len() {
        built[place] = true;
    }
}

fn all_marked(built: &[bool], count: u64) -> bool
    ensures { result ≡ all_marked count built.now }
{
    built.iter().take(count as usize).all(|mark| *mark)
}

// The actions fit into the list, with zeros behind them. A sweep for every 256 subtables, one at least.
#[tactic(auto, using(crate::proofs::SweepLaws::check_laws))]
pub fn check(
    list: &[u64],
    actions: u64,
    temporaries: u64,
    subtables: u64,
    pointer_size: u64,
) -> bool
    ensures { result ≡ check list.now actions temporaries subtables pointer_size }
{
    let (rows, _) = list.as_chunks::<{ action::WORDS }>();
    if (rows.len() as u64) < actions {
        return false;
    }
    let n = actions as usize;
    let end = action::WORDS * n;
    if !zeros(&list[end..]) {
        return false;
    }
    let counts = Counts {
        temporaries,
        subtables,
        pointer: pointer_size,
    };
    let mut base = 0;
    // No index: the base of a sweep, and one is made only if the sweep before it passed.
    while counts.sweep(&rows[..n], base) {
        if subtables - base <= SWEPT {
            return true;
        }
        base += SWEPT;
    }
    false
}
