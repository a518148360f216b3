// Branches: to a label of the section, or to an address, which a direct jump takes as it is and an indirect one reads. Codes stay
// the bytes of the stream, as in expressions. The scope stands beside the context: a struct of both would be made anew at each
// call of a statement, which lends the scope as `&mut` between. The position is each function's own.
ghost use Rattle.std.specs.Prelude.{◌≡◌};
ghost use Rattle.expr_scope.specs.Outcomes.{to_meaning};
ghost use Rattle.stmt_walk.specs.Outcomes.{to_walk, to_step, to_steps};
ghost use Rattle.stmt_walk.specs.Walks.{stepped, walked};
ghost use Rattle.stmt_branches.specs.Branches.{push_label, label_statement, branch_to, branch_label, label_branch, jump_value, after_jump, direct_address, direct, indirect, jump_to, jump, resolve_branch, branch, cond_branch};

use crate::labels::{get_or_insert_label, labelled, resolve_label};
use access::u16_in;
use codes::limit::DEPTH;
use codes::refusal::Refusal;
use codes::{operation, statement, value_kind};
use expr_reading::read::{constant, read_operand};
use expr_resolver::expr::expr_value;
use expr_scope::scope::{ExprValue, resolve_ident};
use expr_terms::answers::{Resolved, after};
use list_pushes::push::{Context, Operation, push_op};
use list_values::value::{Value, no_output};
use stmt_walk::walk::{Stopped, Walk, stop};

#[tactic(auto, unfolding(crate::specs::Branches::push_label, stmt_walk::specs::Walks::step_pushed, stmt_walk::specs::Walks::pushed_then))]
fn push_label(
    context: &Context<'_>,
    actions: &mut [u64],
    temporaries: &mut [u64],
    id: u64,
    next: usize,
    walk: Walk,
) -> Result<(usize, Walk), Refusal>
    ensures { stepped (to_step walk result) actions.new temporaries.new ≡ push_label context.entry.now.section.stream.now context.entry.now.section.table.now actions.old temporaries.old context.entry.now.env id next (to_walk walk) }
{
    let label = Operation {
        number: id,
        ..Operation::nullary(operation::PCODE_LABEL)
    };
    let state = push_op(context, actions, temporaries, label, no_output(), walk.st)?;
    Ok((next, labelled(walk, state, id, 1)))
}

#[tactic(auto, unfolding(crate::specs::Branches::label_statement, crate::specs::Labels::on_label, stmt_walk::specs::Walks::beside_p))]
pub fn label_statement(
    context: &Context<'_>,
    scope: &mut [u64],
    actions: &mut [u64],
    temporaries: &mut [u64],
    pos: usize,
    walk: Walk,
) -> Result<(usize, Walk), Refusal>
    ensures { walked (to_step walk result) scope.new actions.new temporaries.new ≡ label_statement context.entry.now.section.stream.now context.entry.now.section.table.now scope.old actions.old temporaries.old context.entry.now.env pos (to_walk walk) }
{
    let id = resolve_label(scope, u16_in(context.section.stream, pos, 1), walk.labels)?;
    push_label(context, actions, temporaries, id, after(pos, 3), walk)
}

#[tactic(auto, unfolding(crate::specs::Branches::branch_to, stmt_walk::specs::Walks::step_pushed, stmt_walk::specs::Walks::pushed_then))]
#[inline(always)]
fn branch_to(
    context: &Context<'_>,
    actions: &mut [u64],
    temporaries: &mut [u64],
    cond: Resolved<Value>,
    address: Value,
    walk: Walk,
) -> Result<(usize, Walk), Refusal>
    ensures { stepped (to_step walk result) actions.new temporaries.new ≡ branch_to context.entry.now.section.stream.now context.entry.now.section.table.now actions.old temporaries.old context.entry.now.env cond.value address cond.next cond.state (to_walk walk) }
{
    let hint = cond.next;
    let branch = Operation {
        number: access::byte(context.section.stream, hint, 0),
        ..Operation::binary(operation::BRANCH, cond.value, address)
    };
    let st = push_op(
        context,
        actions,
        temporaries,
        branch,
        no_output(),
        cond.state,
    )?;
    Ok((after(hint, 1), Walk { st, ..walk }))
}

#[tactic(auto, unfolding(crate::specs::Branches::branch_label, stmt_walk::specs::Walks::step_pushed, stmt_walk::specs::Walks::pushed_then))]
fn branch_label(
    context: &Context<'_>,
    actions: &mut [u64],
    temporaries: &mut [u64],
    id: u64,
    cond: Resolved<Value>,
    walk: Walk,
) -> Result<(usize, Walk), Stopped>
    ensures { stepped (to_steps result) actions.new temporaries.new ≡ branch_label context.entry.now.section.stream.now context.entry.now.section.table.now actions.old temporaries.old context.entry.now.env id cond.value cond.next cond.state (to_walk walk) }
{
    let here = labelled(walk, cond.state, id, 0);
    let branch = Operation {
        number: id,
        ..Operation::binary(operation::PCODE_BRANCH, cond.value, constant(0))
    };
    let st = push_op(
        context,
        actions,
        temporaries,
        branch,
        no_output(),
        cond.state,
    )
    .map_err(|refusal| stop(here, u64::from(refusal)))?;
    Ok((cond.next, Walk { st, ..here }))
}

// The label's name stands where the condition ends.
#[tactic(auto, unfolding(crate::specs::Branches::label_branch, crate::specs::Labels::on_label, stmt_walk::specs::Walks::beside_p))]
fn label_branch(
    context: &Context<'_>,
    scope: &mut [u64],
    actions: &mut [u64],
    temporaries: &mut [u64],
    cond: Resolved<Value>,
    walk: Walk,
) -> Result<(usize, Walk), Stopped>
    ensures { walked (to_steps result) scope.new actions.new temporaries.new ≡ label_branch context.entry.now.section.stream.now context.entry.now.section.table.now scope.old actions.old temporaries.old context.entry.now.env cond.next cond.value cond.state (to_walk walk) }
{
    let name = u16_in(context.section.stream, cond.next, 1);
    let id = get_or_insert_label(scope, name, walk.labels).map_err(|refusal| stop(
        walk,
        u64::from(refusal),
    ))?;
    let next = after(cond.next, 4);
    branch_label(
        context,
        actions,
        temporaries,
        id,
        Resolved { next, ..cond },
        walk,
    )
}

// What a jump goes to: a name, or an integer with a size.
#[tactic(auto, unfolding(crate::specs::Branches::jump_value))]
fn jump_value(context: &Context<'_>, scope: &[u64], pos: usize) -> Result<ExprValue, Refusal>
    ensures { to_meaning result ≡ jump_value context.entry.now.section.stream.now context.entry.now.section.table.now scope.now pos context.entry.now.env }
{
    if access::byte(context.section.stream, pos, 0) == statement::JUMP_IDENT {
        return resolve_ident(context, scope, u16_in(context.section.stream, pos, 1));
    }
    Ok(ExprValue::Const {
        value: access::u64_at(context.section.stream, after(pos, 1)),
        size: u16_in(context.section.stream, pos, 9),
    })
}

#[tactic(auto, unfolding(crate::specs::Branches::after_jump))]
fn after_jump(stream: &[u8], pos: usize) -> usize
    ensures { result ≡ after_jump stream.now pos }
{
    if access::byte(stream, pos, 0) == statement::JUMP_IDENT {
        return after(pos, 3);
    }
    after(pos, 11)
}

// A direct jump to a subtable takes its SubtableRef at pointer size.
#[tactic(auto, unfolding(crate::specs::Branches::direct_address))]
fn direct_address(value: Value, pointer: u64) -> Value
    ensures { result ≡ direct_address pointer value }
{
    if value.kind == value_kind::SUBTABLE {
        return Value {
            kind: value_kind::SUBTABLE_REF,
            size: pointer,
            ..value
        };
    }
    value
}

#[tactic(auto, unfolding(crate::specs::Branches::direct))]
fn direct(
    context: &Context<'_>,
    actions: &mut [u64],
    temporaries: &mut [u64],
    expr: ExprValue,
    cond: Resolved<Value>,
    walk: Walk,
) -> Result<(usize, Walk), Refusal>
    ensures { stepped (to_step walk result) actions.new temporaries.new ≡ direct context.entry.now.section.stream.now context.entry.now.section.table.now actions.old temporaries.old context.entry.now.env expr cond.value cond.next cond.state (to_walk walk) }
{
    match expr {
        ExprValue::Local(v) => {
            let address = direct_address(v, context.env.pointer);
            branch_to(context, actions, temporaries, cond, address, walk)
        }
        ExprValue::Unbound(_)
        | ExprValue::Const { .. }
        | ExprValue::Apply(_)
        | ExprValue::RamRef(_)
        | ExprValue::RegisterRef(_)
        | ExprValue::AddressOf { .. }
        | ExprValue::BitRange(_) => Err(Refusal::JumpToNonLocal),
    }
}

#[tactic(auto, unfolding(crate::specs::Branches::indirect, list_pushes::specs::Pushes::on_read))]
fn indirect(
    context: &Context<'_>,
    actions: &mut [u64],
    temporaries: &mut [u64],
    expr: ExprValue,
    cond: Resolved<Value>,
    walk: Walk,
) -> Result<(usize, Walk), Refusal>
    ensures { stepped (to_step walk result) actions.new temporaries.new ≡ indirect context.entry.now.section.stream.now context.entry.now.section.table.now actions.old temporaries.old context.entry.now.env expr cond.value cond.next cond.state (to_walk walk) }
{
    let (address, state) = read_operand(context, actions, temporaries, expr, cond.state)?;
    branch_to(
        context,
        actions,
        temporaries,
        Resolved { state, ..cond },
        address,
        walk,
    )
}

#[tactic(auto, unfolding(crate::specs::Branches::jump_to))]
fn jump_to(
    code: u64,
    context: &Context<'_>,
    actions: &mut [u64],
    temporaries: &mut [u64],
    expr: ExprValue,
    cond: Resolved<Value>,
    walk: Walk,
) -> Result<(usize, Walk), Refusal>
    ensures { stepped (to_step walk result) actions.new temporaries.new ≡ jump_to code context.entry.now.section.stream.now context.entry.now.section.table.now actions.old temporaries.old context.entry.now.env expr cond.value cond.next cond.state (to_walk walk) }
{
    if code == statement::DST_DIRECT {
        return direct(context, actions, temporaries, expr, cond, walk);
    }
    indirect(context, actions, temporaries, expr, cond, walk)
}

// Where a jump goes stands where the condition ends.
#[tactic(auto, unfolding(crate::specs::Branches::jump, crate::specs::Branches::jump_meant))]
fn jump(
    context: &Context<'_>,
    scope: &[u64],
    actions: &mut [u64],
    temporaries: &mut [u64],
    cond: Resolved<Value>,
    walk: Walk,
) -> Result<(usize, Walk), Refusal>
    ensures { stepped (to_step walk result) actions.new temporaries.new ≡ jump context.entry.now.section.stream.now context.entry.now.section.table.now scope.now actions.old temporaries.old context.entry.now.env cond.next cond.value cond.state (to_walk walk) }
{
    let target = after(cond.next, 1);
    let code = access::byte(context.section.stream, cond.next, 0);
    let expr = jump_value(context, scope, target)?;
    let next = after_jump(context.section.stream, target);
    jump_to(
        code,
        context,
        actions,
        temporaries,
        expr,
        Resolved { next, ..cond },
        walk,
    )
}

#[tactic(auto, unfolding(crate::specs::Branches::resolve_branch, stmt_walk::specs::Walks::beside_p))]
fn resolve_branch(
    context: &Context<'_>,
    scope: &mut [u64],
    actions: &mut [u64],
    temporaries: &mut [u64],
    cond: Resolved<Value>,
    walk: Walk,
) -> Result<(usize, Walk), Stopped>
    ensures { walked (to_steps result) scope.new actions.new temporaries.new ≡ resolve_branch context.entry.now.section.stream.now context.entry.now.section.table.now scope.old actions.old temporaries.old context.entry.now.env cond.next cond.value cond.state (to_walk walk) }
{
    if access::byte(context.section.stream, cond.next, 0) == statement::DST_LABEL {
        return label_branch(context, scope, actions, temporaries, cond, walk);
    }
    jump(context, scope, actions, temporaries, cond, walk).map_err(|refusal| stop(
        walk,
        u64::from(refusal),
    ))
}

#[tactic(auto, unfolding(crate::specs::Branches::branch))]
pub fn branch(
    context: &Context<'_>,
    scope: &mut [u64],
    actions: &mut [u64],
    temporaries: &mut [u64],
    pos: usize,
    walk: Walk,
) -> Result<(usize, Walk), Stopped>
    ensures { walked (to_steps result) scope.new actions.new temporaries.new ≡ branch context.entry.now.section.stream.now context.entry.now.section.table.now scope.old actions.old temporaries.old context.entry.now.env pos (to_walk walk) }
{
    let always = Resolved {
        value: constant(1),
        next: after(pos, 1),
        state: walk.st,
    };
    resolve_branch(context, scope, actions, temporaries, always, walk)
}

#[tactic(auto, unfolding(crate::specs::Branches::cond_branch, expr_terms::specs::Answers::on_operand))]
pub fn cond_branch(
    context: &Context<'_>,
    scope: &mut [u64],
    actions: &mut [u64],
    temporaries: &mut [u64],
    pos: usize,
    walk: Walk,
) -> Result<(usize, Walk), Stopped>
    ensures { walked (to_steps result) scope.new actions.new temporaries.new ≡ cond_branch context.entry.now.section.stream.now context.entry.now.section.table.now scope.old actions.old temporaries.old context.entry.now.env pos (to_walk walk) }
{
    let at = after(pos, 1);
    let cond = expr_value(DEPTH, context, scope, at, actions, temporaries, walk.st).map_err(
        |refusal| stop(walk, u64::from(refusal)),
    )?;
    resolve_branch(context, scope, actions, temporaries, cond, walk)
}
