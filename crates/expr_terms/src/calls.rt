// Calls in expressions: built-in functions come before any symbol, then user ops; the rest is a subpiece of a local. The scope
// stands beside the context: a struct of both would be made anew at each call of a statement, which lends the scope as `&mut`
// between.
ghost use Rattle.std.specs.Prelude.{◌≡◌, is_some, unwrap_or, Ok};
ghost use Rattle.list_pushes.specs.Outcomes.{to_pushed};
ghost use Rattle.list_pushes.specs.Pushes.{pushed};
ghost use Rattle.expr_inbuilts.specs.Outcomes.{to_inbuilt};
ghost use Rattle.expr_terms.specs.Outcomes.{to_expr, to_callee};
ghost use Rattle.expr_terms.specs.Answers.{resolved};
ghost use Rattle.expr_terms.specs.Calls.{symbol_called, inbuilt_or, callee_of, pass_arg, pass_args, applied, call_user_op, one_integer, only_integer, subpiece};
ghost use Rattle.expr_scope.specs.Outcomes.{to_symbol};
ghost use Rattle.expr_scope.specs.Symbols.{lookup};

use crate::answers::{Resolved, after};
use codes::limit::NAMES;
use codes::refusal::Refusal;
use codes::{expression, operation, table};
use expr_inbuilts::function::Inbuilt;
use expr_inbuilts::inbuilt::translate_inbuilt_func;
use expr_reading::read::read_operand;
use expr_scope::args::arg_at;
use expr_scope::scope::{ExprValue, resolve_ident};
use expr_scope::symbols::{Symbol, lookup};
use list_pushes::push::{Context, Operation, State, push_op};
use list_values::section::Section;
use list_values::value::{Value, no_output};

// The greatest argument of a subpiece.
const LAST_SUBPIECE: u64 = 255;

// What a call's name is: a built-in function, a user op by its number, or a local.
#[derive(Clone, Copy)]
pub enum Callee {
    Inbuilt(Inbuilt),
    UserOp(u64),
    Local,
}

// A call of a user op or of a macro: its number, and how many arguments it is given.
#[derive(Clone, Copy)]
pub struct Call {
    pub id: u64,
    pub arguments: u64,
}

// A global called: a user op, a macro, which no expression calls, or none of these.
#[tactic(auto, unfolding(crate::specs::Calls::symbol_called))]
fn symbol_called(symbol: Option<Symbol>) -> Result<Callee, Refusal>
    ensures { to_callee result ≡ symbol_called (to_symbol symbol) }
{
    match symbol {
        Some(Symbol::UserOp(id)) => Ok(Callee::UserOp(id)),
        Some(Symbol::Macro(_)) => Err(Refusal::MacroInExpression),
        Some(Symbol::Space(_))
        | Some(Symbol::Register(_))
        | Some(Symbol::BitRange(_))
        | Some(Symbol::Table(_))
        | Some(Symbol::Other(_))
        | None => Ok(Callee::Local),
    }
}

#[tactic(auto, unfolding(crate::specs::Calls::inbuilt_or))]
fn inbuilt_or(
    inbuilt: Option<Inbuilt>,
    table: &[u16; table::LENGTH],
    name: u64,
    count: u64,
) -> Result<Callee, Refusal>
    ensures { to_callee result ≡ inbuilt_or (to_inbuilt inbuilt) (lookup table.now name) count }
{
    let Some(inbuilt) = inbuilt else {
        return symbol_called(lookup(table, name));
    };
    let arguments = match inbuilt {
        Inbuilt::Unary(_) => 1,
        Inbuilt::Binary(_) => 2,
    };
    if arguments != count {
        return Err(Refusal::ArgumentCount);
    }
    Ok(Callee::Inbuilt(inbuilt))
}

#[tactic(auto, unfolding(crate::specs::Calls::callee_of))]
pub fn callee_of(section: Section<'_>, name: u64, count: u64) -> Result<Callee, Refusal>
    ensures { to_callee result ≡ callee_of section.entry.stream.now section.entry.table.now name count }
{
    let table = section.table;
    let at = usize::from(access::get(table, (name % NAMES) as usize));
    let inbuilt = translate_inbuilt_func(section.stream, at);
    inbuilt_or(inbuilt, table, name, count)
}

#[tactic(auto, unfolding(crate::specs::Calls::pass_arg, list_pushes::specs::Pushes::on_read))]
fn pass_arg(
    context: &Context<'_>,
    actions: &mut [u64],
    temporaries: &mut [u64],
    expr: ExprValue,
    index: u64,
    state: State,
) -> Result<State, Refusal>
    ensures { pushed (to_pushed result) actions.new temporaries.new ≡ pass_arg context.entry.now.section.stream.now context.entry.now.section.table.now actions.old temporaries.old expr index context.entry.now.env state }
{
    let (value, state) = read_operand(context, actions, temporaries, expr, state)?;
    let arg = Operation {
        number: index,
        ..Operation::unary(operation::ARG, value)
    };
    push_op(context, actions, temporaries, arg, no_output(), state)
}

// The arguments from the third on, each followed by its Arg. Their slots go round after eight, so a slice of them would not
// tell how many there are: the number stands beside.
#[tactic(auto, using(crate::proofs::CallLaws::args_laws))]
fn pass_args(
    context: &Context<'_>,
    actions: &mut [u64],
    temporaries: &mut [u64],
    args: &[u64],
    count: u64,
    state: State,
) -> Result<State, Refusal>
    ensures { pushed (to_pushed result) actions.new temporaries.new ≡ pass_args context.entry.now.section.stream.now context.entry.now.section.table.now actions.old temporaries.old args.now count context.entry.now.env state }
{
    let mut state = state;
    for i in 2..count {
        state = pass_arg(context, actions, temporaries, arg_at(args, i), i - 2, state)?;
    }
    Ok(state)
}

// An operation on values, as an expression.
pub fn applied(operation: Operation, next: usize, state: State) -> Resolved<ExprValue>
    ensures { to_expr (Ok result) ≡ applied operation.code operation.number operation.count operation.first operation.second next state }
{
    Resolved {
        next,
        value: ExprValue::Apply(operation),
        state,
    }
}

// A user op with arguments that are resolved: it has the first two as its inputs.
#[tactic(auto, unfolding(crate::specs::Calls::call_user_op, crate::specs::Calls::user_op_some, crate::specs::Calls::user_op_two, list_pushes::specs::Pushes::on_pushed, list_pushes::specs::Pushes::on_read))]
pub fn call_user_op(
    context: &Context<'_>,
    actions: &mut [u64],
    temporaries: &mut [u64],
    args: &[u64],
    call: Call,
    next: usize,
    state: State,
) -> Result<Resolved<ExprValue>, Refusal>
    ensures { resolved (to_expr result) actions.new temporaries.new ≡ call_user_op context.entry.now.section.stream.now context.entry.now.section.table.now actions.old temporaries.old args.now call.arguments call.id next context.entry.now.env state }
{
    let count = call.arguments;
    let state = pass_args(context, actions, temporaries, args, count, state)?;
    let operation = Operation {
        number: call.id,
        ..Operation::nullary(operation::PCODE_OP)
    };
    if count == 0 {
        return Ok(applied(operation, next, state));
    }
    let argument = arg_at(args, 0);
    let (first, state) = read_operand(context, actions, temporaries, argument, state)?;
    let operation = Operation {
        count: 1,
        first,
        ..operation
    };
    if count == 1 {
        return Ok(applied(operation, next, state));
    }
    let argument = arg_at(args, 1);
    let (second, state) = read_operand(context, actions, temporaries, argument, state)?;
    let operation = Operation {
        count: 2,
        second,
        ..operation
    };
    Ok(applied(operation, next, state))
}

// The one argument, where it is an integer.
#[tactic(auto, unfolding(crate::specs::Calls::one_integer, crate::specs::Calls::only_integer))]
pub fn only_integer(stream: &[u8], pos: usize, count: u64) -> Option<u64>
    ensures given { is_some result ≡ one_integer stream.now pos count }
    ensures number { unwrap_or result 18446744073709551615 ≡ only_integer stream.now pos count }
{
    if count != 1 || access::byte(stream, pos, 4) != expression::INTEGER {
        return None;
    }
    Some(access::u64_at(stream, after(pos, 5)))
}

#[tactic(auto, unfolding(crate::specs::Calls::subpiece, crate::specs::Calls::subpiece_meant, crate::specs::Calls::subpiece_of, crate::specs::Calls::subpiece_from, crate::specs::Answers::expr_of))]
pub fn subpiece(
    context: &Context<'_>,
    scope: &[u64],
    actions: &mut [u64],
    temporaries: &mut [u64],
    pos: usize,
    name: u64,
    count: u64,
    state: State,
) -> Result<Resolved<ExprValue>, Refusal>
    ensures { resolved (to_expr result) actions.new temporaries.new ≡ subpiece context.entry.now.section.stream.now context.entry.now.section.table.now scope.now actions.old temporaries.old pos name count context.entry.now.env state }
{
    let meant = resolve_ident(context, scope, name)?;
    let (value, state) = read_operand(context, actions, temporaries, meant, state)?;
    match only_integer(context.section.stream, pos, count) {
        Some(offset) if offset <= LAST_SUBPIECE => {
            let operation = Operation {
                number: offset,
                ..Operation::unary(operation::SUBPIECE, value)
            };
            Ok(applied(operation, after(pos, 13), state))
        }
        _ => Err(Refusal::SubpieceArgument),
    }
}
