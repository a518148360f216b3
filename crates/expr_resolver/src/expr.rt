// Expressions, resolved by a walk over their prefix code: each part one level deeper. Codes stay the bytes that the stream has:
// the reader has refused those that mean nothing, but no type says so here, and as an enum each would be converted at every step,
// and have a variant more for such a byte. The scope stands beside the context: a struct of both would be made anew at each call
// of a statement, which lends the scope as `&mut` between. The position is each function's own.
ghost use Rattle.std.specs.Prelude.{◌≡◌, ◌+◌, ℕ, List, Some, Ok, IfSome};
ghost use Rattle.access.specs.Le.{le16};
ghost use Rattle.expr_scope.specs.Scopes.{resolve_ident};
ghost use Rattle.expr_scope.specs.Outcomes.{to_args};
ghost use Rattle.expr_inbuilts.specs.Outcomes.{to_inbuilt};
ghost use Rattle.expr_terms.specs.Outcomes.{to_expr, to_operand};
ghost use Rattle.expr_terms.specs.Answers.{resolved, operand, passed, after};
ghost use Rattle.expr_resolver.specs.Expressions.{means_at, local_address, address_of, atom, operation_of, skip_expr, operands_of, part_at, with_part, expr_value, part, resolve_op, call_inbuilt, resolve_args, user_op, resolve_call, resolve_expr};

use access::u16_in;
use codes::limit::DEPTH;
use codes::refusal::Refusal;
use codes::{NONE, expression, operation};
use expr_inbuilts::function::Inbuilt;
use expr_reading::read::{constant, read_operand};
use expr_scope::args::{ARGS_WORDS, put_arg};
use expr_scope::scope::{Bits, ExprValue, plain_local, resolve_ident};
use expr_terms::address::resolve_address;
use expr_terms::answers::{Resolved, after};
use expr_terms::calls::{Call, Callee, applied, call_user_op, callee_of, subpiece};
use expr_terms::slices::slice_bits;
use file_syntax::cursor::{Cursor, Source, place_of};
use list_pushes::push::{Context, Operation, State};
use list_values::value::Value;

// Where the operands of an operator stand, in the order in which they are resolved.
#[derive(Clone, Copy)]
pub struct Order {
    pub op: u64,
    pub first: usize,
    pub second: usize,
}

#[tactic(auto, unfolding(crate::specs::Expressions::local_address))]
fn local_address(
    expr: ExprValue,
    size: u64,
    next: usize,
    state: State,
) -> Result<Resolved<ExprValue>, Refusal>
    ensures { to_expr result ≡ local_address expr size next state }
{
    match expr {
        ExprValue::Local(base) => Ok(Resolved {
            next,
            value: ExprValue::AddressOf { base, size },
            state,
        }),
        ExprValue::Unbound(_)
        | ExprValue::Const { .. }
        | ExprValue::Apply(_)
        | ExprValue::RamRef(_)
        | ExprValue::RegisterRef(_)
        | ExprValue::AddressOf { .. }
        | ExprValue::BitRange(_) => Err(Refusal::AddressOfNonLocal),
    }
}

#[tactic(auto, unfolding(crate::specs::Expressions::address_of, crate::specs::Expressions::address_meant))]
fn address_of(
    context: &Context<'_>,
    scope: &[u64],
    pos: usize,
    state: State,
) -> Result<Resolved<ExprValue>, Refusal>
    ensures { to_expr result ≡ address_of context.entry.now.section.stream.now context.entry.now.section.table.now scope.now pos context.entry.now.env state }
{
    let base = resolve_ident(context, scope, u16_in(context.section.stream, pos, 3))?;
    local_address(
        base,
        u16_in(context.section.stream, pos, 1),
        after(pos, 5),
        state,
    )
}

// The name at a position.
#[tactic(auto, using(expr_scope::proofs::ScopeLaws::plain_means, expr_scope::proofs::ScopeLaws::plain_wrong), unfolding(crate::specs::Expressions::means_at))]
fn name_at(
    context: &Context<'_>,
    scope: &[u64],
    pos: usize,
    state: State,
) -> Result<Resolved<ExprValue>, Refusal>
    ensures { to_expr result ≡ means_at (resolve_ident context.entry.now.section.stream.now context.entry.now.section.table.now scope.now context.entry.now.env (le16 context.entry.now.section.stream.now (pos + 1))) (after pos 3) state }
{
    let name = u16_in(context.section.stream, pos, 1);
    let next = after(pos, 3);
    let value = match plain_local(context, scope, name)? {
        Some(local) => ExprValue::Local(local),
        None => resolve_ident(context, scope, name)?,
    };
    Ok(Resolved { next, value, state })
}

// A name, an integer or the address of a local.
#[tactic(auto, unfolding(crate::specs::Expressions::atom, crate::specs::Expressions::means_at))]
fn atom(
    code: u64,
    context: &Context<'_>,
    scope: &[u64],
    pos: usize,
    state: State,
) -> Result<Resolved<ExprValue>, Refusal>
    ensures { to_expr result ≡ atom code context.entry.now.section.stream.now context.entry.now.section.table.now scope.now pos context.entry.now.env state }
{
    match code {
        expression::IDENT => name_at(context, scope, pos, state),
        expression::INTEGER => Ok(Resolved {
            next: after(pos, 9),
            value: ExprValue::Const {
                value: access::u64_at(context.section.stream, after(pos, 1)),
                size: NONE,
            },
            state,
        }),
        _ => address_of(context, scope, pos, state),
    }
}

// The operation of an operator: the six greater ones are the lesser ones swapped.
#[tactic(auto, unfolding(crate::specs::Expressions::operation_of))]
fn operation_of(code: u64) -> u64
    ensures { result ≡ operation_of code }
{
    match code {
        expression::INT_GREATER => operation::INT_LESS,
        expression::INT_GREATER_EQUAL => operation::INT_LESS_EQUAL,
        expression::INT_SIGNED_GREATER => operation::INT_SIGNED_LESS,
        expression::INT_SIGNED_GREATER_EQUAL => operation::INT_SIGNED_LESS_EQUAL,
        expression::FLOAT_GREATER => operation::FLOAT_LESS,
        expression::FLOAT_GREATER_EQUAL => operation::FLOAT_LESS_EQUAL,
        _ => code,
    }
}

// Where the expression at a position ends.
#[tactic(auto, unfolding(crate::specs::Expressions::skip_expr))]
pub fn skip_expr(stream: &[u8], pos: usize) -> usize
    ensures { result ≡ skip_expr stream.now pos }
{
    let start = Ok(Cursor { at: pos, val: 0 });
    place_of(file_syntax::expressions::expr(DEPTH, &Source::new(stream), start))
}

// The six greater operators swap their operands before either is resolved.
#[tactic(auto, unfolding(crate::specs::Expressions::operands_of, crate::specs::Expressions::operands_around, crate::specs::Expressions::order_of))]
fn operands_of(stream: &[u8], pos: usize) -> Order
    ensures { result ≡ operands_of stream.now pos }
{
    let first = after(pos, 1);
    let middle = skip_expr(stream, first);
    let code = access::byte(stream, middle, 0);
    let second = after(middle, 1);
    if code < expression::INT_GREATER {
        return Order {
            op: code,
            first,
            second,
        };
    }
    Order {
        op: operation_of(code),
        first: second,
        second: first,
    }
}

// Where the part of a truncation, a slice or a dereference stands, after its code.
#[tactic(auto, unfolding(crate::specs::Expressions::part_at))]
fn part_at(code: u64) -> usize
    ensures { result ≡ part_at code }
{
    if code == expression::DEREF { 5 } else { 1 }
}

// A truncation, a slice or a dereference of a part that is resolved.
#[tactic(auto, unfolding(crate::specs::Expressions::with_part))]
fn with_part(
    code: u64,
    context: &Context<'_>,
    actions: &mut [u64],
    temporaries: &mut [u64],
    pos: usize,
    part: Resolved<ExprValue>,
) -> Result<Resolved<ExprValue>, Refusal>
    ensures { resolved (to_expr result) actions.new temporaries.new ≡ with_part code context.entry.now.section.stream.now context.entry.now.section.table.now actions.old temporaries.old pos context.entry.now.env part.value part.next part.state }
{
    let next = part.next;
    let (bits, next) = match code {
        expression::TRUNCATE => {
            let count = 8 * u16_in(context.section.stream, next, 0);
            (Bits { from: 0, count }, after(next, 2))
        }
        expression::SLICE_BITS => {
            let from = u16_in(context.section.stream, next, 0);
            let count = u16_in(context.section.stream, next, 2);
            (Bits { from, count }, after(next, 4))
        }
        _ => {
            let space = u16_in(context.section.stream, pos, 1);
            let size = u16_in(context.section.stream, pos, 3);
            return resolve_address(context, actions, temporaries, space, size, part);
        }
    };
    slice_bits(
        context,
        actions,
        temporaries,
        Resolved { next, ..part },
        bits,
    )
}

// What stands at a position, where it is a plain local or an integer, of which reading pushes nothing, or a name that is refused. Told
// by `expr_value` at once: by the way of all, which carries each operand as an `ExprValue`, sections of operators took a third longer.
#[tactic(auto, using(crate::proofs::ExprLaws::plain_read, crate::proofs::ExprLaws::plain_refused, crate::proofs::ExprLaws::integer_read))]
fn plain_operand(
    deep: u64,
    context: &Context<'_>,
    scope: &[u64],
    pos: usize,
    state: State,
) -> Option<Result<Resolved<Value>, Refusal>>
    ensures { IfSome result (λ o. (a m : List ℕ) → operand (to_operand o) a m ≡ expr_value (resolve_expr deep context.entry.now.section.stream.now context.entry.now.section.table.now scope.now context.entry.now.env) context.entry.now.section.stream.now context.entry.now.section.table.now context.entry.now.env pos a m state) }
{
    if deep == 0 {
        return None;
    }
    match access::byte(context.section.stream, pos, 0) {
        expression::IDENT => {
            let name = u16_in(context.section.stream, pos, 1);
            match plain_local(context, scope, name) {
                Ok(Some(value)) => Some(Ok(Resolved {
                    value,
                    next: after(pos, 3),
                    state,
                })),
                Ok(None) => None,
                Err(refusal) => Some(Err(refusal)),
            }
        }
        expression::INTEGER => Some(Ok(Resolved {
            value: constant(access::u64_at(context.section.stream, after(pos, 1))),
            next: after(pos, 9),
            state,
        })),
        _ => None,
    }
}

// An expression resolved, then read.
#[cycle(call_inbuilt_expr_value_part_resolve_args_resolve_call_resolve_expr_resolve_op_user_op)]
#[tactic(auto, unfolding(crate::specs::Expressions::expr_value, crate::specs::Expressions::value_then, expr_terms::specs::Answers::on_expr, expr_terms::specs::Answers::operand_of))]
pub fn expr_value(
    deep: u64,
    context: &Context<'_>,
    scope: &[u64],
    pos: usize,
    actions: &mut [u64],
    temporaries: &mut [u64],
    state: State,
) -> Result<Resolved<Value>, Refusal>
    ensures { operand (to_operand result) actions.new temporaries.new ≡ expr_value (resolve_expr deep context.entry.now.section.stream.now context.entry.now.section.table.now scope.now context.entry.now.env) context.entry.now.section.stream.now context.entry.now.section.table.now context.entry.now.env pos actions.old temporaries.old state }
{
    if let Some(operand) = plain_operand(deep, context, scope, pos, state) {
        return operand;
    }
    let expr = resolve_expr(deep, context, scope, pos, actions, temporaries, state)?;
    let (value, state) = read_operand(context, actions, temporaries, expr.value, expr.state)?;
    Ok(Resolved {
        value,
        next: expr.next,
        state,
    })
}

// What has one part: a truncation, a slice or a dereference.
#[cycle(call_inbuilt_expr_value_part_resolve_args_resolve_call_resolve_expr_resolve_op_user_op)]
#[tactic(auto, unfolding(crate::specs::Expressions::part, expr_terms::specs::Answers::on_expr))]
fn part(
    deep: u64,
    code: u64,
    context: &Context<'_>,
    scope: &[u64],
    pos: usize,
    actions: &mut [u64],
    temporaries: &mut [u64],
    state: State,
) -> Result<Resolved<ExprValue>, Refusal>
    ensures { resolved (to_expr result) actions.new temporaries.new ≡ part (resolve_expr deep context.entry.now.section.stream.now context.entry.now.section.table.now scope.now context.entry.now.env) code context.entry.now.section.stream.now context.entry.now.section.table.now context.entry.now.env pos actions.old temporaries.old state }
{
    let at = after(pos, part_at(code));
    let part = resolve_expr(deep, context, scope, at, actions, temporaries, state)?;
    with_part(code, context, actions, temporaries, pos, part)
}

#[cycle(call_inbuilt_expr_value_part_resolve_args_resolve_call_resolve_expr_resolve_op_user_op)]
#[tactic(auto, unfolding(crate::specs::Expressions::resolve_op, crate::specs::Expressions::binary, crate::specs::Expressions::apply2, expr_terms::specs::Answers::on_operand, expr_terms::specs::Answers::applied_to))]
fn resolve_op(
    deep: u64,
    context: &Context<'_>,
    scope: &[u64],
    pos: usize,
    actions: &mut [u64],
    temporaries: &mut [u64],
    state: State,
) -> Result<Resolved<ExprValue>, Refusal>
    ensures { resolved (to_expr result) actions.new temporaries.new ≡ resolve_op (resolve_expr deep context.entry.now.section.stream.now context.entry.now.section.table.now scope.now context.entry.now.env) context.entry.now.section.stream.now context.entry.now.section.table.now context.entry.now.env pos actions.old temporaries.old state }
{
    let order = operands_of(context.section.stream, pos);
    let first = expr_value(
        deep,
        context,
        scope,
        order.first,
        actions,
        temporaries,
        state,
    )?;
    let second = expr_value(
        deep,
        context,
        scope,
        order.second,
        actions,
        temporaries,
        first.state,
    )?;
    let operation = Operation::binary(order.op, first.value, second.value);
    Ok(applied(operation, first.next.max(second.next), second.state))
}

// A built-in function: each argument is read before the next is resolved.
#[cycle(call_inbuilt_expr_value_part_resolve_args_resolve_call_resolve_expr_resolve_op_user_op)]
#[tactic(auto, unfolding(crate::specs::Expressions::call_inbuilt, crate::specs::Expressions::second_of, crate::specs::Expressions::apply1, crate::specs::Expressions::apply2, expr_terms::specs::Answers::on_operand, expr_terms::specs::Answers::applied_to))]
fn call_inbuilt(
    deep: u64,
    context: &Context<'_>,
    scope: &[u64],
    pos: usize,
    inbuilt: Inbuilt,
    actions: &mut [u64],
    temporaries: &mut [u64],
    state: State,
) -> Result<Resolved<ExprValue>, Refusal>
    ensures { resolved (to_expr result) actions.new temporaries.new ≡ call_inbuilt (resolve_expr deep context.entry.now.section.stream.now context.entry.now.section.table.now scope.now context.entry.now.env) context.entry.now.section.stream.now context.entry.now.section.table.now context.entry.now.env pos (to_inbuilt (Some inbuilt)) actions.old temporaries.old state }
{
    let at = after(pos, 4);
    let first = expr_value(deep, context, scope, at, actions, temporaries, state)?;
    let op = match inbuilt {
        Inbuilt::Unary(op) => {
            let operation = Operation::unary(op, first.value);
            return Ok(applied(operation, first.next, first.state));
        }
        Inbuilt::Binary(op) => op,
    };
    let second = expr_value(
        deep,
        context,
        scope,
        first.next,
        actions,
        temporaries,
        first.state,
    )?;
    let operation = Operation::binary(op, first.value, second.value);
    Ok(applied(operation, second.next, second.state))
}

// So many arguments, resolved only, into the slots of `args`, which are a macro's scope in one call and an array in another. Their
// number comes from the file and the slots go round after eight, so the loop counts the arguments.
#[cycle(call_inbuilt_expr_value_part_resolve_args_resolve_call_resolve_expr_resolve_op_user_op)]
#[tactic(auto, using(crate::proofs::ExprLaws::args_laws))]
pub fn resolve_args(
    deep: u64,
    context: &Context<'_>,
    scope: &[u64],
    pos: usize,
    count: u64,
    actions: &mut [u64],
    temporaries: &mut [u64],
    args: &mut [u64],
    state: State,
) -> Result<(usize, State), Refusal>
    ensures { passed (to_args result) actions.new temporaries.new args.new ≡ resolve_args (resolve_expr deep context.entry.now.section.stream.now context.entry.now.section.table.now scope.now context.entry.now.env) count 0 pos actions.old temporaries.old args.old state }
{
    let mut at = pos;
    let mut state = state;
    for i in 0..count {
        let arg = resolve_expr(deep, context, scope, at, actions, temporaries, state)?;
        put_arg(args, i, arg.value);
        at = arg.next;
        state = arg.state;
    }
    Ok((at, state))
}

#[cycle(call_inbuilt_expr_value_part_resolve_args_resolve_call_resolve_expr_resolve_op_user_op)]
#[tactic(auto, unfolding(crate::specs::Expressions::user_op, expr_terms::specs::Answers::on_args))]
fn user_op(
    deep: u64,
    context: &Context<'_>,
    scope: &[u64],
    pos: usize,
    call: Call,
    actions: &mut [u64],
    temporaries: &mut [u64],
    state: State,
) -> Result<Resolved<ExprValue>, Refusal>
    ensures { resolved (to_expr result) actions.new temporaries.new ≡ user_op (resolve_expr deep context.entry.now.section.stream.now context.entry.now.section.table.now scope.now context.entry.now.env) context.entry.now.section.stream.now context.entry.now.section.table.now context.entry.now.env pos call.id call.arguments actions.old temporaries.old state }
{
    let mut args = [0u64; ARGS_WORDS];
    let (next, state) = resolve_args(
        deep,
        context,
        scope,
        after(pos, 4),
        call.arguments,
        actions,
        temporaries,
        &mut args,
        state,
    )?;
    call_user_op(context, actions, temporaries, &args, call, next, state)
}

#[cycle(call_inbuilt_expr_value_part_resolve_args_resolve_call_resolve_expr_resolve_op_user_op)]
#[tactic(auto, unfolding(crate::specs::Expressions::resolve_call, crate::specs::Expressions::call_named))]
fn resolve_call(
    deep: u64,
    context: &Context<'_>,
    scope: &[u64],
    pos: usize,
    actions: &mut [u64],
    temporaries: &mut [u64],
    state: State,
) -> Result<Resolved<ExprValue>, Refusal>
    ensures { resolved (to_expr result) actions.new temporaries.new ≡ resolve_call (resolve_expr deep context.entry.now.section.stream.now context.entry.now.section.table.now scope.now context.entry.now.env) context.entry.now.section.stream.now context.entry.now.section.table.now scope.now context.entry.now.env pos actions.old temporaries.old state }
{
    let name = u16_in(context.section.stream, pos, 1);
    let arguments = access::byte(context.section.stream, pos, 3);
    match callee_of(context.section, name, arguments)? {
        Callee::Inbuilt(inbuilt) => {
            call_inbuilt(
                deep,
                context,
                scope,
                pos,
                inbuilt,
                actions,
                temporaries,
                state,
            )
        }
        Callee::UserOp(id) => {
            let call = Call { id, arguments };
            user_op(deep, context, scope, pos, call, actions, temporaries, state)
        }
        Callee::Local => subpiece(
            context,
            scope,
            actions,
            temporaries,
            pos,
            name,
            arguments,
            state,
        ),
    }
}

#[cycle(call_inbuilt_expr_value_part_resolve_args_resolve_call_resolve_expr_resolve_op_user_op)]
#[tactic(auto, using(crate::proofs::ExprLaws::deep_laws))]
pub fn resolve_expr(
    deep: u64,
    context: &Context<'_>,
    scope: &[u64],
    pos: usize,
    actions: &mut [u64],
    temporaries: &mut [u64],
    state: State,
) -> Result<Resolved<ExprValue>, Refusal>
    ensures { resolved (to_expr result) actions.new temporaries.new ≡ resolve_expr deep context.entry.now.section.stream.now context.entry.now.section.table.now scope.now context.entry.now.env pos actions.old temporaries.old state }
{
    if deep == 0 {
        return Err(Refusal::OutsideLimit);
    }
    let code = access::byte(context.section.stream, pos, 0);
    if code < expression::TRUNCATE {
        return atom(code, context, scope, pos, state);
    }
    if code == expression::OP {
        return resolve_op(deep - 1, context, scope, pos, actions, temporaries, state);
    }
    if code < expression::CONSTANT_POOL_REF {
        return part(
            deep - 1,
            code,
            context,
            scope,
            pos,
            actions,
            temporaries,
            state,
        );
    }
    if code == expression::CONSTANT_POOL_REF {
        return Err(Refusal::ConstantPool);
    }
    resolve_call(deep - 1, context, scope, pos, actions, temporaries, state)
}
