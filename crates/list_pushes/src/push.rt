// Temporaries and pushes. Actions are pushed behind room for the Builds of all subtables, up to the end of the lent list.
ghost use Rattle.std.specs.Prelude.{◌≡◌, ◌+◌, leb, is_some, unwrap_or};
ghost use Rattle.list_values.specs.Base.{listed};
ghost use Rattle.list_values.specs.Values.{absent};
ghost use Rattle.list_pushes.specs.Outcomes.{to_read, to_pushed};
ghost use Rattle.list_pushes.specs.Operations.{nullary, unary, binary};
ghost use Rattle.list_pushes.specs.Pushes.{read, pushed, state, add_tmp, output_or, write_operands, write_head, write, push, update_last, push_op, op_to, op};

use crate::passes::pass;
use codes::refusal::Refusal;
use codes::{NONE, action, action_kind, value_kind};
use list_values::section::Section;
use list_values::sizes::{Direction, Rules, Sizing, Sources, record_errors};
use list_values::value::{
    INPUT_0, INPUT_1, OUTPUT, Span, Value, absent, local, put, put_value, value_at, zero_words,
};

const MOST_TEMPORARIES: usize = 512;

// The words behind an action's first two inputs.
const AFTER_INPUTS: usize = 10;

// Where the list of actions ends, the temporaries made, and the sizing. The two lent lists go beside it as parameters of their
// own: a struct that holds them as `&mut` would need in each contract two clauses more, that it still holds the same ones.
#[derive(Clone, Copy)]
pub struct State {
    pub end: usize,
    pub temporaries: usize,
    pub sizing: Sizing,
}

// What a walk is given: the pointer size, whether the scope is the section's own, and how many parameters it has.
#[derive(Clone, Copy)]
pub struct Env {
    pub pointer: u64,
    pub own: bool,
    pub count: usize,
}

// What a walk reads and does not change: the section, and what else it is given.
#[derive(Clone, Copy)]
pub struct Context<'a> {
    pub section: Section<'a>,
    pub env: Env,
}

// An operation by its code, with its number and at most two inputs. The code stays a number, as an action's kind does: both go
// into the words of the lent list as they are. So does the number of inputs, which a parameter's slot gives back as any number.
#[derive(Clone, Copy)]
pub struct Operation {
    pub code: u64,
    pub number: u64,
    pub count: u64,
    pub first: Value,
    pub second: Value,
}

impl Operation {
    // With no input; its number is 0, as with the next two.
    pub fn nullary(code: u64) -> Operation
        ensures { result ≡ nullary code }
    {
        Operation {
            code,
            number: 0,
            count: 0,
            first: absent(),
            second: absent(),
        }
    }

    pub fn unary(code: u64, input: Value) -> Operation
        ensures { result ≡ unary code input }
    {
        Operation {
            code,
            number: 0,
            count: 1,
            first: input,
            second: absent(),
        }
    }

    pub fn binary(code: u64, first: Value, second: Value) -> Operation
        ensures { result ≡ binary code first second }
    {
        Operation {
            code,
            number: 0,
            count: 2,
            first,
            second,
        }
    }
}

// A temporary with its name and size.
#[tactic(auto, unfolding(crate::specs::Pushes::add_tmp, crate::specs::Pushes::tmp_word))]
pub fn add_tmp(
    temporaries: &mut [u64],
    name: u64,
    size: u64,
    state: State,
) -> Result<(Value, State), Refusal>
    ensures { listed (to_read result) temporaries.new ≡ add_tmp temporaries.old name size state }
{
    let n = state.temporaries;
    if n < temporaries.len() && n < MOST_TEMPORARIES {
        temporaries[n] = name % 65536 + size % 65536 * 65536;
        let next = State {
            temporaries: n + 1,
            ..state
        };
        return Ok((local(value_kind::PCODE_TMP, n as u64), next));
    }
    Err(Refusal::TooManyTemporaries)
}

// The output given, else a fresh temporary of that size.
#[tactic(auto, unfolding(crate::specs::Pushes::output_or))]
pub fn output_or(
    temporaries: &mut [u64],
    to: Option<Value>,
    size: u64,
    state: State,
) -> Result<(Value, State), Refusal>
    ensures { listed (to_read result) temporaries.new ≡ output_or temporaries.old (is_some to) (unwrap_or to absent) size state }
{
    match to {
        Some(value) => Ok((value, state)),
        None => add_tmp(temporaries, NONE, size, state),
    }
}

#[tactic(auto, unfolding(crate::specs::Pushes::write_operands))]
#[inline(always)]
fn write_operands(actions: &mut [u64], at: usize, out: Value, first: Value, second: Value)
    ensures { actions.new ≡ write_operands actions.old at out first second }
{
    put_value(actions, at, OUTPUT, out);
    put_value(actions, at, INPUT_0, first);
    put_value(actions, at, INPUT_1, second);
}

#[tactic(auto, unfolding(crate::specs::Pushes::write_head))]
#[inline(always)]
fn write_head(actions: &mut [u64], at: usize, kind: u64, operation: Operation)
    ensures { actions.new ≡ write_head actions.old at kind operation.code operation.number operation.count }
{
    put(actions, at, action::KIND, kind);
    put(actions, at, action::OPERATION, operation.code);
    put(actions, at, action::NUMBER, operation.number);
    put(actions, at, action::INPUT_COUNT, operation.count);
}

// All 24 words of an action with at most two inputs. It and what it calls are compiled into each push, where most of the words
// are known: called, an operation goes through memory.
#[tactic(auto, unfolding(crate::specs::Pushes::write))]
#[inline(always)]
fn write(actions: &mut [u64], at: usize, kind: u64, operation: Operation, out: Value)
    ensures { actions.new ≡ write actions.old at kind operation.code operation.number operation.count out operation.first operation.second }
{
    write_head(actions, at, kind, operation);
    write_operands(actions, at, out, operation.first, operation.second);
    zero_words(actions, at, AFTER_INPUTS);
}

fn has_room(len: usize, end: usize) -> bool
    ensures { result ≡ leb (end + 24) len }
{
    end <= len && action::WORDS <= len - end
}

// An action of any kind with at most two inputs, pushed as it is.
#[tactic(auto, unfolding(crate::specs::Pushes::push))]
#[inline(always)]
pub fn push(
    actions: &mut [u64],
    kind: u64,
    operation: Operation,
    out: Value,
    state: State,
) -> Result<State, Refusal>
    ensures { listed (to_pushed result) actions.new ≡ push actions.old kind operation.code operation.number operation.count out operation.first operation.second state }
{
    let at = state.end;
    if has_room(actions.len(), at) {
        let end = at + action::WORDS;
        write(actions, at, kind, operation, out);
        return Ok(State { end, ..state });
    }
    Err(Refusal::ListFull)
}

// The rule of the action pushed last.
#[tactic(auto, using(crate::proofs::PassLaws::pass_one), unfolding(crate::specs::Pushes::update_last, list_values::specs::Sizes::then_s))]
#[inline(always)]
fn update_last(
    context: &Context<'_>,
    actions: &mut [u64],
    temporaries: &mut [u64],
    at: usize,
    before: State,
) -> State
    ensures { state result actions.new temporaries.new ≡ update_last context.entry.now.section.stream.now context.entry.now.section.table.now actions.old temporaries.old at context.entry.now.env.pointer before }
{
    let rules = Rules {
        sources: Sources {
            section: context.section,
            pointer: context.env.pointer,
        },
        direction: Direction::Backward,
    };
    let pushed = Span { base: at, count: 1 };
    let k = pass(&rules, actions, temporaries, pushed);
    State {
        sizing: record_errors(before.sizing, k),
        ..before
    }
}

#[tactic(auto, unfolding(crate::specs::Pushes::push_op, crate::specs::Pushes::on_push, crate::specs::Pushes::on_state))]
#[inline(always)]
pub fn push_op(
    context: &Context<'_>,
    actions: &mut [u64],
    temporaries: &mut [u64],
    operation: Operation,
    out: Value,
    state: State,
) -> Result<State, Refusal>
    ensures { pushed (to_pushed result) actions.new temporaries.new ≡ push_op context.entry.now.section.stream.now context.entry.now.section.table.now actions.old temporaries.old context.entry.now.env operation.code operation.number operation.count out operation.first operation.second state }
{
    let at = state.end;
    let next = push(actions, action_kind::OP, operation, out, state)?;
    Ok(update_last(context, actions, temporaries, at, next))
}

// An operation with an output, and the output as its rule left it.
#[tactic(auto, unfolding(crate::specs::Pushes::op_to, crate::specs::Pushes::on_pushed))]
#[inline(always)]
pub fn op_to(
    context: &Context<'_>,
    actions: &mut [u64],
    temporaries: &mut [u64],
    operation: Operation,
    to: Value,
    state: State,
) -> Result<(Value, State), Refusal>
    ensures { read (to_read result) actions.new temporaries.new ≡ op_to context.entry.now.section.stream.now context.entry.now.section.table.now actions.old temporaries.old context.entry.now.env operation.code operation.number operation.count to operation.first operation.second state }
{
    let at = state.end;
    let next = push_op(context, actions, temporaries, operation, to, state)?;
    Ok((value_at(actions, at, OUTPUT), next))
}

// The same, with a fresh temporary where no output is given.
#[tactic(auto, unfolding(crate::specs::Pushes::op, crate::specs::Pushes::on_tmp))]
pub fn op(
    context: &Context<'_>,
    actions: &mut [u64],
    temporaries: &mut [u64],
    operation: Operation,
    to: Option<Value>,
    state: State,
) -> Result<(Value, State), Refusal>
    ensures { read (to_read result) actions.new temporaries.new ≡ op context.entry.now.section.stream.now context.entry.now.section.table.now actions.old temporaries.old context.entry.now.env operation.code operation.number operation.count (is_some to) (unwrap_or to absent) operation.first operation.second state }
{
    let (value, next) = output_or(temporaries, to, NONE, state)?;
    op_to(context, actions, temporaries, operation, value, next)
}
