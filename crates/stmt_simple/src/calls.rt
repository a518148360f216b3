// Calls that enter no macro: the delay slot and user ops; and what a macro call is given. The scope stands beside the context: a
// struct of both would be made anew at each call of a statement, which lends the scope as `&mut` between. The position is each
// function's own.
ghost use Rattle.std.specs.Prelude.{◌≡◌, Some};
ghost use Rattle.list_values.specs.Base.{listed};
ghost use Rattle.list_pushes.specs.Outcomes.{to_pushed};
ghost use Rattle.expr_scope.specs.Outcomes.{to_args, to_symbol};
ghost use Rattle.expr_terms.specs.Answers.{passed};
ghost use Rattle.stmt_walk.specs.Outcomes.{to_walk, to_step};
ghost use Rattle.stmt_walk.specs.Walks.{stepped};
ghost use Rattle.stmt_simple.specs.Outcomes.{to_called};
ghost use Rattle.stmt_simple.specs.Calls.{symbol_called, called_of, delay_slot, args_read, read_args, write_inputs, push_user_op, user_op_args, user_op_statement, macro_at, bind_names, counted, macro_args};

use access::u16_in;
use codes::limit::{DEPTH, MACROS};
use codes::refusal::Refusal;
use codes::{action_kind, header, operation, table};
use expr_reading::read::read_operand;
use expr_resolver::expr::resolve_args;
use expr_scope::args::{ARGS_WORDS, arg_at};
use expr_scope::scope::{SLOT_A, SLOT_NAME, param_place};
use expr_scope::symbols::{Symbol, lookup};
use expr_terms::answers::after;
use expr_terms::calls::{Call, only_integer};
use list_pushes::push::{Context, Operation, State, push};
use list_values::section::Section;
use list_values::value::{INPUT_0, absent, no_output, put, put_value, value_at};
use stmt_walk::walk::Walk;

// What a call statement calls: the delay slot, or a user op or a macro by its number.
#[derive(Clone, Copy)]
pub enum Called {
    DelaySlot,
    UserOp(u64),
    Macro(u64),
}

// A statement calls no local, and a macro only a statement, so this is not the function of expressions.
#[tactic(auto, unfolding(crate::specs::Calls::symbol_called))]
fn symbol_called(symbol: Symbol) -> Result<Called, Refusal>
    ensures { to_called result ≡ symbol_called (to_symbol (Some symbol)) }
{
    match symbol {
        Symbol::UserOp(id) => Ok(Called::UserOp(id)),
        Symbol::Macro(id) => Ok(Called::Macro(id)),
        Symbol::Space(_)
        | Symbol::Register(_)
        | Symbol::BitRange(_)
        | Symbol::Table(_)
        | Symbol::Other(_) => Err(Refusal::WrongKind),
    }
}

#[tactic(auto, unfolding(crate::specs::Calls::called_of, crate::specs::Calls::symbol_called))]
pub fn called_of(section: Section<'_>, name: u64) -> Result<Called, Refusal>
    ensures { to_called result ≡ called_of section.entry.stream.now section.entry.table.now name }
{
    if name == access::u16_at(section.stream, header::DELAY_SLOT) {
        return Ok(Called::DelaySlot);
    }
    symbol_called(lookup(section.table, name).ok_or(Refusal::Undefined)?)
}

#[tactic(auto, unfolding(crate::specs::Calls::delay_slot, list_values::specs::Base::then_l, stmt_walk::specs::Walks::pushed_then))]
pub fn delay_slot(
    stream: &[u8],
    actions: &mut [u64],
    pos: usize,
    count: u64,
    walk: Walk,
) -> Result<(usize, Walk), Refusal>
    ensures { listed (to_step walk result) actions.new ≡ delay_slot stream.now actions.old pos count (to_walk walk) }
{
    match only_integer(stream, pos, count) {
        Some(1) => {
            let slot = Operation::nullary(0);
            let st = push(actions, action_kind::DELAY_SLOT, slot, absent(), walk.st)?;
            Ok((after(pos, 13), Walk { st, ..walk }))
        }
        _ => Err(Refusal::DelaySlotArgument),
    }
}

// Reads so many arguments in place: each slot's value becomes an operand. The slots go round after eight, as those of a scope's
// parameters do, so these loops count arguments, and their number stands beside the words.
#[tactic(auto, using(crate::proofs::CallLaws::args_laws))]
fn read_args(
    context: &Context<'_>,
    actions: &mut [u64],
    temporaries: &mut [u64],
    args: &mut [u64],
    count: u64,
    state: State,
) -> Result<State, Refusal>
    ensures { args_read (to_pushed result) actions.new temporaries.new args.new ≡ read_args count 0 context.entry.now.section.stream.now context.entry.now.section.table.now actions.old temporaries.old args.old context.entry.now.env state }
{
    let mut state = state;
    for i in 0..count {
        let arg = arg_at(args, i);
        let (value, next) = read_operand(context, actions, temporaries, arg, state)?;
        put_value(args, param_place(i as usize), SLOT_A, value);
        state = next;
    }
    Ok(state)
}

// The operands that so many arguments became, as the inputs of the action at a position.
#[tactic(auto, using(access::proofs::LoopLaws::run_again, access::proofs::LoopLaws::run_end), unfolding(crate::specs::Calls::write_inputs, crate::specs::Calls::write_input))]
fn write_inputs(actions: &mut [u64], at: usize, args: &[u64], count: u64)
    ensures { actions.new ≡ write_inputs count actions.old at args.now }
{
    for i in 0..count {
        let v = value_at(args, param_place(i as usize), SLOT_A);
        // Below 8, so the cast loses nothing.
        let input = (i % 8) as u8;
        put_value(actions, at, INPUT_0 + 2 * input, v);
    }
}

#[tactic(auto, unfolding(crate::specs::Calls::push_user_op, list_pushes::specs::Pushes::on_push))]
fn push_user_op(
    actions: &mut [u64],
    args: &[u64],
    call: Call,
    state: State,
) -> Result<State, Refusal>
    ensures { listed (to_pushed result) actions.new ≡ push_user_op actions.old args.now call.id call.arguments state }
{
    let operation = Operation {
        number: call.id,
        count: call.arguments,
        ..Operation::nullary(operation::PCODE_OP)
    };
    let next = push(actions, action_kind::OP, operation, no_output(), state)?;
    write_inputs(actions, state.end, args, call.arguments);
    Ok(next)
}

#[tactic(auto, unfolding(crate::specs::Calls::user_op_args, crate::specs::Calls::user_op_read, list_values::specs::Base::then_l))]
fn user_op_args(
    context: &Context<'_>,
    actions: &mut [u64],
    temporaries: &mut [u64],
    args: &mut [u64],
    call: Call,
    state: State,
) -> Result<State, Refusal>
    ensures { args_read (to_pushed result) actions.new temporaries.new args.new ≡ user_op_args context.entry.now.section.stream.now context.entry.now.section.table.now actions.old temporaries.old args.old call.id call.arguments context.entry.now.env state }
{
    let next = read_args(context, actions, temporaries, args, call.arguments, state)?;
    push_user_op(actions, args, call, next)
}

#[tactic(auto, unfolding(crate::specs::Calls::user_op_statement, crate::specs::Calls::step_args, expr_terms::specs::Answers::on_args, stmt_walk::specs::Walks::pushed_then))]
pub fn user_op_statement(
    context: &Context<'_>,
    scope: &[u64],
    actions: &mut [u64],
    temporaries: &mut [u64],
    pos: usize,
    call: Call,
    walk: Walk,
) -> Result<(usize, Walk), Refusal>
    ensures { stepped (to_step walk result) actions.new temporaries.new ≡ user_op_statement context.entry.now.section.stream.now context.entry.now.section.table.now scope.now actions.old temporaries.old context.entry.now.env pos call.id call.arguments (to_walk walk) }
{
    let mut args = [0u64; ARGS_WORDS];
    let (next, state) = resolve_args(
        DEPTH,
        context,
        scope,
        after(pos, 4),
        call.arguments,
        actions,
        temporaries,
        &mut args,
        walk.st,
    )?;
    let st = user_op_args(context, actions, temporaries, &mut args, call, state)?;
    Ok((next, Walk { st, ..walk }))
}

// Where the macro of a number stands.
#[tactic(auto, unfolding(crate::specs::Calls::macro_at))]
pub fn macro_at(table: &[u16; table::LENGTH], id: u64) -> usize
    ensures { result ≡ macro_at table.now id }
{
    usize::from(access::get(table, table::MACROS + (id % MACROS) as usize))
}

// Gives so many arguments the names of the macro's parameters, which stand from a position on: each slot's first word.
#[tactic(auto, using(access::proofs::LoopLaws::run_again, access::proofs::LoopLaws::run_end), unfolding(crate::specs::Calls::bind_names, crate::specs::Calls::bind_name))]
fn bind_names(stream: &[u8], args: &mut [u64], names: usize, count: usize)
    ensures { args.new ≡ bind_names count stream.now names args.old }
{
    for i in 0..count {
        let name = u16_in(stream, names, i % 8 * 2);
        put(args, param_place(i), SLOT_NAME, name);
    }
}

// As many arguments as the macro has parameters.
#[tactic(auto, unfolding(crate::specs::Calls::counted))]
fn counted(
    section: Section<'_>,
    call: Call,
    next: usize,
    state: State,
) -> Result<(usize, State), Refusal>
    ensures { to_args result ≡ counted section.entry.stream.now section.entry.table.now call.id call.arguments next state }
{
    if access::byte(section.stream, macro_at(section.table, call.id), 0) == call.arguments {
        return Ok((next, state));
    }
    Err(Refusal::MacroArguments)
}

// The arguments of a macro call, as its parameters.
#[tactic(auto, unfolding(crate::specs::Calls::macro_args, crate::specs::Calls::macro_counted))]
pub fn macro_args(
    context: &Context<'_>,
    scope: &[u64],
    actions: &mut [u64],
    temporaries: &mut [u64],
    args: &mut [u64],
    pos: usize,
    call: Call,
    state: State,
) -> Result<(usize, State), Refusal>
    ensures { passed (to_args result) actions.new temporaries.new args.new ≡ macro_args context.entry.now.section.stream.now context.entry.now.section.table.now scope.now actions.old temporaries.old args.old context.entry.now.env pos call.id call.arguments state }
{
    let (next, state) = resolve_args(
        DEPTH,
        context,
        scope,
        after(pos, 4),
        call.arguments,
        actions,
        temporaries,
        args,
        state,
    )?;
    let names = after(macro_at(context.section.table, call.id), 1);
    bind_names(context.section.stream, args, names, call.arguments as usize);
    counted(context.section, call, next, state)
}
