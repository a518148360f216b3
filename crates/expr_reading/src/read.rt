// Reading: an expression's value becomes an operand, in the output where one is given.
ghost use Rattle.std.specs.Prelude.{◌≡◌, is_some, unwrap_or};
ghost use Rattle.list_values.specs.Base.{listed};
ghost use Rattle.list_values.specs.Values.{local, absent};
ghost use Rattle.list_pushes.specs.Outcomes.{to_read};
ghost use Rattle.list_pushes.specs.Pushes.{read};
ghost use Rattle.expr_reading.specs.Outcomes.{to_stated};
ghost use Rattle.expr_reading.specs.Reading.{needed_bytes, constant, set_size, set_stated, take_stated, copy_to, byte_aligned, sliced, masked, shift_and_mask, part_of, read_slice, read_address, load, load_register, read_value, read_operand};

use codes::refusal::Refusal;
use codes::{NONE, action_kind, operation, value_kind};
use expr_scope::scope::{Access, BitRange, Bits, ExprValue};
use list_pushes::push::{Context, Operation, State, add_tmp, op, op_to, output_or, push};
use list_values::section::Section;
use list_values::sizes::{record_errors, settle, size_of};
use list_values::value::{Value, absent, local, slice_bytes, with_size};

pub fn needed_bytes(bits: u64) -> u64
    ensures { result ≡ needed_bytes bits }
{
    bits.div_ceil(8)
}

pub fn constant(count: u64) -> Value
    ensures { result ≡ constant count }
{
    local(value_kind::CONSTANT, count)
}

// The value with this size, and the state then.
#[tactic(auto, unfolding(crate::specs::Reading::set_size, list_values::specs::Base::then_l))]
fn set_size(
    section: Section<'_>,
    temporaries: &mut [u64],
    value: Value,
    size: u64,
    state: State,
) -> (Value, State)
    ensures { listed (to_stated result) temporaries.new ≡ set_size section.entry.stream.now section.entry.table.now temporaries.old value size state }
{
    let known = size_of(section, temporaries, value);
    let errors = settle(temporaries, value, known, size);
    let state = State {
        sizing: record_errors(state.sizing, errors),
        ..state
    };
    (with_size(value, size), state)
}

// A register access's stated size is set; 0, as slots and actions have it, sets none.
#[tactic(auto, unfolding(crate::specs::Reading::set_stated))]
pub fn set_stated(
    section: Section<'_>,
    temporaries: &mut [u64],
    value: Value,
    size: u64,
    state: State,
) -> (Value, State)
    ensures { listed (to_stated result) temporaries.new ≡ set_stated section.entry.stream.now section.entry.table.now temporaries.old value size state }
{
    if size == 0 {
        return (value, state);
    }
    set_size(section, temporaries, value, size, state)
}

// A RAM access's stated size is taken silently; 0, as slots and actions have it, sets none.
#[tactic(auto, unfolding(crate::specs::Reading::take_stated))]
pub fn take_stated(
    section: Section<'_>,
    temporaries: &mut [u64],
    value: Value,
    size: u64,
    state: State,
) -> (Value, State)
    ensures { listed (to_stated result) temporaries.new ≡ take_stated section.entry.stream.now section.entry.table.now temporaries.old value size state }
{
    if size == 0 {
        return (value, state);
    }
    if size_of(section, temporaries, value) != NONE {
        return (with_size(value, size), state);
    }
    set_size(section, temporaries, value, size, state)
}

// This and `masked` are compiled into what reads, since a push in them grows too large to be taken in without a hint.
#[tactic(auto, unfolding(crate::specs::Reading::copy_to))]
#[inline(always)]
fn copy_to(
    context: &Context<'_>,
    actions: &mut [u64],
    temporaries: &mut [u64],
    to: Option<Value>,
    value: Value,
    state: State,
) -> Result<(Value, State), Refusal>
    ensures { read (to_read result) actions.new temporaries.new ≡ copy_to context.entry.now.section.stream.now context.entry.now.section.table.now actions.old temporaries.old context.entry.now.env (is_some to) (unwrap_or to absent) value state }
{
    match to {
        Some(output) => {
            let copy = Operation::unary(operation::COPY, value);
            op_to(context, actions, temporaries, copy, output, state)
        }
        None => Ok((value, state)),
    }
}

#[tactic(auto, unfolding(crate::specs::Reading::byte_aligned))]
pub fn byte_aligned(bits: Bits) -> bool
    ensures { result ≡ byte_aligned bits.from bits.count }
{
    bits.from % 8 == 0 && bits.count % 8 == 0
}

// The slice, unless its offset passes 65,535.
#[tactic(auto, unfolding(crate::specs::Reading::sliced, crate::specs::Reading::slice_read))]
pub fn sliced(value: Value, more: u64, size: u64, state: State) -> Result<(Value, State), Refusal>
    ensures { to_read result ≡ sliced value more size state }
{
    let slice = slice_bytes(value, more, size)?;
    Ok((slice, state))
}

// An operation into a temporary, and then so many of its low bits.
#[tactic(auto, unfolding(crate::specs::Reading::masked, list_pushes::specs::Pushes::on_read))]
#[inline(always)]
pub fn masked(
    context: &Context<'_>,
    actions: &mut [u64],
    temporaries: &mut [u64],
    operation: Operation,
    tmp: Value,
    bits: u64,
    state: State,
) -> Result<(Value, State), Refusal>
    ensures { read (to_read result) actions.new temporaries.new ≡ masked context.entry.now.section.stream.now context.entry.now.section.table.now actions.old temporaries.old context.entry.now.env operation tmp bits state }
{
    let (_, state) = op_to(context, actions, temporaries, operation, tmp, state)?;
    let low = Operation::binary(operation::INT_AND, tmp, constant(access::mask(bits)));
    op_to(context, actions, temporaries, low, tmp, state)
}

#[tactic(auto, unfolding(crate::specs::Reading::shift_and_mask, crate::specs::Reading::shift_to, crate::specs::Reading::masked, list_pushes::specs::Pushes::on_tmp, list_pushes::specs::Pushes::on_read))]
fn shift_and_mask(
    context: &Context<'_>,
    actions: &mut [u64],
    temporaries: &mut [u64],
    range: BitRange,
    state: State,
) -> Result<(Value, State), Refusal>
    ensures { read (to_read result) actions.new temporaries.new ≡ shift_and_mask context.entry.now.section.stream.now context.entry.now.section.table.now actions.old temporaries.old context.entry.now.env range.base range.bits.from range.bits.count state }
{
    let BitRange { base, bits } = range;
    let size = size_of(context.section, temporaries, base);
    let (tmp, state) = add_tmp(temporaries, NONE, size, state)?;
    let shift = Operation::binary(operation::INT_RIGHT, base, constant(bits.from));
    let (_, state) = masked(context, actions, temporaries, shift, tmp, bits.count, state)?;
    Ok((with_size(tmp, needed_bytes(bits.count)), state))
}

#[tactic(auto, unfolding(crate::specs::Reading::part_of))]
fn part_of(
    context: &Context<'_>,
    actions: &mut [u64],
    temporaries: &mut [u64],
    range: BitRange,
    state: State,
) -> Result<(Value, State), Refusal>
    ensures { read (to_read result) actions.new temporaries.new ≡ part_of context.entry.now.section.stream.now context.entry.now.section.table.now actions.old temporaries.old context.entry.now.env range.base range.bits.from range.bits.count state }
{
    let bits = range.bits;
    if byte_aligned(bits) {
        return sliced(range.base, bits.from / 8, bits.count / 8, state);
    }
    shift_and_mask(context, actions, temporaries, range, state)
}

#[tactic(auto, unfolding(crate::specs::Reading::read_slice, list_pushes::specs::Pushes::on_read))]
pub fn read_slice(
    context: &Context<'_>,
    actions: &mut [u64],
    temporaries: &mut [u64],
    range: BitRange,
    to: Option<Value>,
    state: State,
) -> Result<(Value, State), Refusal>
    ensures { read (to_read result) actions.new temporaries.new ≡ read_slice context.entry.now.section.stream.now context.entry.now.section.table.now actions.old temporaries.old context.entry.now.env range.base range.bits.from range.bits.count (is_some to) (unwrap_or to absent) state }
{
    let (part, next) = part_of(context, actions, temporaries, range, state)?;
    copy_to(context, actions, temporaries, to, part, next)
}

#[tactic(auto, unfolding(crate::specs::Reading::read_address, crate::specs::Reading::pushed_out, crate::specs::Reading::pushed_to, list_pushes::specs::Pushes::on_tmp))]
fn read_address(
    actions: &mut [u64],
    temporaries: &mut [u64],
    base: Value,
    size: u64,
    to: Option<Value>,
    state: State,
) -> Result<(Value, State), Refusal>
    ensures { read (to_read result) actions.new temporaries.new ≡ read_address actions.old temporaries.old base size (is_some to) (unwrap_or to absent) state }
{
    if base.offset != 0 {
        return Err(Refusal::AddressOfOffset);
    }
    let (value, next) = output_or(temporaries, to, size, state)?;
    let address = Operation::unary(0, local(base.kind, base.number));
    let last = push(actions, action_kind::ADDRESS_OF, address, value, next)?;
    Ok((value, last))
}

#[tactic(auto, unfolding(crate::specs::Reading::load, crate::specs::Reading::load_to, list_pushes::specs::Pushes::on_tmp))]
fn load(
    context: &Context<'_>,
    actions: &mut [u64],
    temporaries: &mut [u64],
    from: Access,
    to: Option<Value>,
    state: State,
) -> Result<(Value, State), Refusal>
    ensures { read (to_read result) actions.new temporaries.new ≡ load context.entry.now.section.stream.now context.entry.now.section.table.now actions.old temporaries.old context.entry.now.env from.pointer from.size (is_some to) (unwrap_or to absent) state }
{
    let (value, next) = output_or(temporaries, to, NONE, state)?;
    let (output, next) = take_stated(context.section, temporaries, value, from.size, next);
    let load = Operation::unary(operation::LOAD, from.pointer);
    op_to(context, actions, temporaries, load, output, next)
}

// Not one function with `load`: an operation's rule sizes what it loads, and this action has its size as its number.
#[tactic(auto, unfolding(crate::specs::Reading::load_register, crate::specs::Reading::load_register_to, crate::specs::Reading::pushed_out, crate::specs::Reading::pushed_to, list_pushes::specs::Pushes::on_tmp))]
fn load_register(
    section: Section<'_>,
    actions: &mut [u64],
    temporaries: &mut [u64],
    from: Access,
    to: Option<Value>,
    state: State,
) -> Result<(Value, State), Refusal>
    ensures { read (to_read result) actions.new temporaries.new ≡ load_register section.entry.stream.now section.entry.table.now actions.old temporaries.old from.pointer from.size (is_some to) (unwrap_or to absent) state }
{
    let (value, next) = output_or(temporaries, to, from.size, state)?;
    let (output, next) = set_stated(section, temporaries, value, from.size, next);
    let load = Operation {
        number: from.size,
        ..Operation::unary(0, from.pointer)
    };
    let last = push(actions, action_kind::LOAD_REGISTER, load, output, next)?;
    Ok((output, last))
}

#[tactic(auto, unfolding(crate::specs::Reading::read_value))]
pub fn read_value(
    context: &Context<'_>,
    actions: &mut [u64],
    temporaries: &mut [u64],
    expr: ExprValue,
    to: Option<Value>,
    state: State,
) -> Result<(Value, State), Refusal>
    ensures { read (to_read result) actions.new temporaries.new ≡ read_value context.entry.now.section.stream.now context.entry.now.section.table.now actions.old temporaries.old context.entry.now.env expr (is_some to) (unwrap_or to absent) state }
{
    match expr {
        ExprValue::Local(v) | ExprValue::Unbound(v) => {
            copy_to(context, actions, temporaries, to, v, state)
        }
        ExprValue::Const { value, size } => {
            let v = with_size(constant(value), size);
            copy_to(context, actions, temporaries, to, v, state)
        }
        ExprValue::Apply(operation) => { op(context, actions, temporaries, operation, to, state) }
        ExprValue::RamRef(from) => load(context, actions, temporaries, from, to, state),
        ExprValue::RegisterRef(from) => {
            load_register(context.section, actions, temporaries, from, to, state)
        }
        ExprValue::AddressOf { base, size } => {
            read_address(actions, temporaries, base, size, to, state)
        }
        ExprValue::BitRange(range) => {
            // By a name of its own, so that the answers of the other arms need not go through memory.
            let r = read_slice(context, actions, temporaries, range, to, state);
            r
        }
    }
}

// Read as an operand, with no output given.
#[tactic(auto, unfolding(crate::specs::Reading::read_operand))]
pub fn read_operand(
    context: &Context<'_>,
    actions: &mut [u64],
    temporaries: &mut [u64],
    expr: ExprValue,
    state: State,
) -> Result<(Value, State), Refusal>
    ensures { read (to_read result) actions.new temporaries.new ≡ read_operand context.entry.now.section.stream.now context.entry.now.section.table.now actions.old temporaries.old context.entry.now.env expr state }
{
    read_value(context, actions, temporaries, expr, None, state)
}
