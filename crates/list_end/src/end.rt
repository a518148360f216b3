// The end: sizes fixed, subpieces turned into copies, the implicit Builds in front, unused words zero. All its loops, over actions,
// over an action's inputs and words, and over subtables, whose Builds are actions, go by an index: an action may reach past the
// list's end, where words are read as 0 and none are written, which no method of slices does; and more subtables may be asked for
// than can be marked as built.
// Kinds and operations are numbers, since they are words of the list, which may hold any.
ghost use Rattle.std.specs.Prelude.{◌≡◌};
ghost use Rattle.codes.specs.Refusals.{number_or_zero};
ghost use Rattle.list_values.specs.Base.{listed};
ghost use Rattle.list_end.specs.Outcomes.{to_fixed, to_finished};
ghost use Rattle.list_end.specs.End.{fix_size, fix_operand, fix_inputs, fix_output, fix_operands, write_copy, subpiece_copy, finish_op, finish_actions, mark_build, mark_built, write_build, implicit_builds, implicit_build, move_action, move_down, assemble};

use codes::action::{NO_OUTPUT, OUTPUT_WORD, SIZE_PLACE};
use codes::refusal::Refusal;
use codes::{NONE, action, action_kind, operation};
use list_values::sizes::{Sizing, Sources, falls_back, record_errors, size_of};
use list_values::value::{
    INPUT_0, OUTPUT, Span, Value, get, place, put, put_value, slice_bytes, value_at, with_size,
    zero_words,
};

// How many subtables can be marked as built.
const MARKS: usize = 32;

// A value with its size fixed, and the sizing after that: the known size, else the fallback, else an error.
#[tactic(auto, unfolding(crate::specs::End::fix_size, list_values::specs::Sizes::error))]
pub fn fix_size(
    sources: &Sources<'_>,
    temporaries: &[u64],
    value: Value,
    sizing: Sizing,
) -> (Value, Sizing)
    ensures { to_fixed result ≡ fix_size sources.entry.now.section.stream.now sources.entry.now.section.table.now temporaries.now value sources.entry.now.pointer sizing }
{
    let known = size_of(sources.section, temporaries, value);
    if known != NONE {
        return (with_size(value, known), sizing);
    }
    if falls_back(value) {
        return (with_size(value, sources.pointer), sizing);
    }
    (value, record_errors(sizing, 1))
}

#[tactic(auto, using(crate::proofs::EndLaws::fix_sized), unfolding(crate::specs::End::fix_operand, crate::specs::End::put_fixed))]
fn fix_operand(
    sources: &Sources<'_>,
    actions: &mut [u64],
    temporaries: &[u64],
    at: usize,
    index: u8,
    sizing: Sizing,
) -> Sizing
    ensures { listed result actions.new ≡ fix_operand sources.entry.now.section.stream.now sources.entry.now.section.table.now actions.old temporaries.now at index sources.entry.now.pointer sizing }
{
    // Most operands have a size of their own by now, and stay as they are.
    if get(actions, at, usize::from(index) + 1) / SIZE_PLACE < NONE {
        return sizing;
    }
    let (value, sizing) = fix_size(sources, temporaries, value_at(actions, at, index), sizing);
    put_value(actions, at, index, value);
    sizing
}

#[tactic(auto, using(access::proofs::LoopLaws::run_again, access::proofs::LoopLaws::run_end), unfolding(crate::specs::End::fix_inputs, crate::specs::End::fix_input, list_values::specs::Base::then_l))]
fn fix_inputs(
    sources: &Sources<'_>,
    actions: &mut [u64],
    temporaries: &[u64],
    at: usize,
    count: usize,
    sizing: Sizing,
) -> Sizing
    ensures { listed result actions.new ≡ fix_inputs sources.entry.now.section.stream.now sources.entry.now.section.table.now actions.old temporaries.now at count sources.entry.now.pointer sizing }
{
    let mut sizing = sizing;
    for i in 0..count {
        sizing = fix_operand(
            sources,
            actions,
            temporaries,
            at,
            // Below 8, so the cast loses nothing.
            INPUT_0 + (i % 8) as u8 * 2,
            sizing,
        );
    }
    sizing
}

#[tactic(auto, unfolding(crate::specs::End::fix_output))]
fn fix_output(
    sources: &Sources<'_>,
    actions: &mut [u64],
    temporaries: &[u64],
    at: usize,
    sizing: Sizing,
) -> Sizing
    ensures { listed result actions.new ≡ fix_output sources.entry.now.section.stream.now sources.entry.now.section.table.now actions.old temporaries.now at sources.entry.now.pointer sizing }
{
    if get(actions, at, OUTPUT_WORD) == NO_OUTPUT {
        return sizing;
    }
    fix_operand(sources, actions, temporaries, at, OUTPUT, sizing)
}

#[tactic(auto, unfolding(crate::specs::End::fix_operands, list_values::specs::Base::then_l))]
fn fix_operands(
    sources: &Sources<'_>,
    actions: &mut [u64],
    temporaries: &[u64],
    at: usize,
    sizing: Sizing,
) -> Sizing
    ensures { listed result actions.new ≡ fix_operands sources.entry.now.section.stream.now sources.entry.now.section.table.now actions.old temporaries.now at sources.entry.now.pointer sizing }
{
    let n = get(actions, at, action::INPUT_COUNT) % 16;
    let y = fix_inputs(sources, actions, temporaries, at, n as usize, sizing);
    fix_output(sources, actions, temporaries, at, y)
}

// The Copy of a part of a value.
#[tactic(auto, unfolding(crate::specs::End::write_copy))]
fn write_copy(actions: &mut [u64], at: usize, part: Value)
    ensures { actions.new ≡ write_copy actions.old at part }
{
    put(actions, at, action::OPERATION, operation::COPY);
    put(actions, at, action::NUMBER, 0);
    put_value(actions, at, INPUT_0, part);
}

// A subpiece becomes a Copy of part of its input.
#[tactic(auto, unfolding(crate::specs::End::subpiece_copy, crate::specs::End::copy_of))]
fn subpiece_copy(actions: &mut [u64], at: usize) -> Result<(), Refusal>
    ensures { listed (number_or_zero result) actions.new ≡ subpiece_copy actions.old at }
{
    let size = value_at(actions, at, OUTPUT).size;
    if size == NONE {
        return Err(Refusal::SubpieceSize);
    }
    let value = value_at(actions, at, INPUT_0);
    let part = slice_bytes(value, get(actions, at, action::NUMBER) % 65536, size)?;
    write_copy(actions, at, part);
    Ok(())
}

// A refusal at the end, and the sizing until then.
#[derive(Clone, Copy)]
pub struct Unfinished {
    pub refusal: Refusal,
    pub sizing: Sizing,
}

#[tactic(auto, unfolding(crate::specs::End::finish_op, crate::specs::End::finish_fixed, list_values::specs::Base::then_l))]
fn finish_op(
    sources: &Sources<'_>,
    actions: &mut [u64],
    temporaries: &[u64],
    at: usize,
    sizing: Sizing,
) -> Result<Sizing, Unfinished>
    ensures { listed (to_finished result) actions.new ≡ finish_op sources.entry.now.section.stream.now sources.entry.now.section.table.now actions.old temporaries.now at sources.entry.now.pointer sizing }
{
    if get(actions, at, action::KIND) != action_kind::OP {
        return Ok(sizing);
    }
    let sizing = fix_operands(sources, actions, temporaries, at, sizing);
    if get(actions, at, action::OPERATION) != operation::SUBPIECE {
        return Ok(sizing);
    }
    subpiece_copy(actions, at).map_err(|refusal| Unfinished { refusal, sizing })?;
    Ok(sizing)
}

#[tactic(auto, using(crate::proofs::EndLaws::finish_laws))]
pub fn finish_actions(
    sources: &Sources<'_>,
    actions: &mut [u64],
    temporaries: &[u64],
    span: Span,
    sizing: Sizing,
) -> Result<Sizing, Unfinished>
    ensures { listed (to_finished result) actions.new ≡ finish_actions sources.entry.now.section.stream.now sources.entry.now.section.table.now actions.old temporaries.now span.base span.count sources.entry.now.pointer sizing }
{
    let mut sizing = sizing;
    for i in 0..span.count {
        let at = place(span.base, i);
        sizing = finish_op(sources, actions, temporaries, at, sizing)?;
    }
    Ok(sizing)
}

// Marks the subtables that one of these actions builds.
#[tactic(auto, using(access::proofs::LoopLaws::run_again, access::proofs::LoopLaws::run_end), unfolding(crate::specs::End::mark_built, crate::specs::End::mark_action))]
fn mark_built(actions: &[u64], span: Span, built: &mut [bool])
    ensures { built.new ≡ mark_built actions.now span.base span.count built.old }
{
    for i in 0..span.count {
        let at = place(span.base, i);
        mark_build(
            get(actions, at, action::KIND),
            get(actions, at, action::NUMBER),
            built,
        );
    }
}

#[tactic(auto, unfolding(crate::specs::End::mark_build))]
fn mark_build(kind: u64, number: u64, built: &mut [bool])
    ensures { built.new ≡ mark_build kind number built.old }
{
    let number = number as usize;
    if kind == action_kind::BUILD && number < built.len() {
        built[number] = true;
    }
}

#[tactic(auto, unfolding(crate::specs::End::write_build))]
fn write_build(actions: &mut [u64], at: usize, number: u64)
    ensures { actions.new ≡ write_build actions.old at number }
{
    zero_words(actions, at, action::KIND);
    put(actions, at, action::KIND, action_kind::BUILD);
    put(actions, at, action::NUMBER, number);
}

// A Build of each of the first so many subtables that is not built yet, from the list's start on: how many.
#[tactic(auto, using(access::proofs::LoopLaws::run_again, access::proofs::LoopLaws::run_end), unfolding(crate::specs::End::implicit_builds))]
fn implicit_builds(actions: &mut [u64], built: &[bool], count: usize) -> usize
    ensures { listed result actions.new ≡ implicit_builds actions.old built.now count }
{
    let mut k = 0;
    for i in 0..count {
        k = implicit_build(actions, built, i, k);
    }
    k
}

#[tactic(auto, unfolding(crate::specs::End::implicit_build, list_values::specs::Base::then_l))]
fn implicit_build(actions: &mut [u64], built: &[bool], index: usize, placed: usize) -> usize
    ensures { listed result actions.new ≡ implicit_build built.now index (listed placed actions.old) }
{
    if built.get(index) == Some(&true) {
        return placed;
    }
    write_build(actions, place(0, placed), index as u64);
    placed.wrapping_add(1)
}

// Moves the action at one position to another.
#[tactic(auto, using(access::proofs::LoopLaws::run_again, access::proofs::LoopLaws::run_end), unfolding(crate::specs::End::move_action, crate::specs::End::move_word))]
fn move_action(actions: &mut [u64], from: usize, to: usize)
    ensures { actions.new ≡ move_action actions.old from to }
{
    for i in 0..action::WORDS {
        let w = get(actions, from, i);
        put(actions, to, i, w);
    }
}

// Moves these actions down, to behind so many Builds.
#[tactic(auto, using(access::proofs::LoopLaws::run_again, access::proofs::LoopLaws::run_end), unfolding(crate::specs::End::move_down, crate::specs::End::move_to))]
fn move_down(actions: &mut [u64], span: Span, builds: usize)
    ensures { actions.new ≡ move_down actions.old span.base builds span.count }
{
    if span.base == place(0, builds) {
        return;
    }
    for i in 0..span.count {
        move_action(actions, place(span.base, i), place(place(0, builds), i));
    }
}

// The list in its final order: the implicit Builds, the actions pushed, which stand behind room for all subtables, zeros.
// How many actions it has.
#[tactic(auto, unfolding(crate::specs::End::assemble, list_values::specs::Base::then_l, crate::specs::End::zero_from))]
pub fn assemble(actions: &mut [u64], subtables: usize, pushed: usize) -> usize
    ensures { listed result actions.new ≡ assemble actions.old subtables pushed }
{
    // Fixed memory: the library has no heap.
    let mut built = [false; MARKS];
    let span = Span {
        base: place(0, subtables),
        count: pushed,
    };
    mark_built(actions, span, &mut built);
    let k = implicit_builds(actions, &built, subtables);
    move_down(actions, span, k);
    let count = k.wrapping_add(pushed);
    access::zero_from(actions, place(0, count));
    count
}
