// Stores: the value is read before the pointer. The scope stands beside the context: a struct of both would be made anew at each
// call of a statement, which lends the scope as `&mut` between. The position is each function's own.
ghost use Rattle.std.specs.Prelude.{◌≡◌};
ghost use Rattle.stmt_walk.specs.Outcomes.{to_walk, to_step};
ghost use Rattle.stmt_walk.specs.Walks.{stepped};
ghost use Rattle.stmt_assignments.specs.Stores.{store, store_register, store_at, store_in, store_pointer, store_statement};

use access::u16_in;
use codes::limit::DEPTH;
use codes::refusal::Refusal;
use codes::{action_kind, operation};
use expr_reading::read::{set_stated, take_stated};
use expr_resolver::expr::{expr_value, resolve_expr, skip_expr};
use expr_scope::scope::{Access, ExprValue};
use expr_terms::address::resolve_address;
use expr_terms::answers::{Resolved, after};
use list_pushes::push::{Context, Operation, push, push_op};
use list_values::section::Section;
use list_values::value::{Value, absent, no_output};
use stmt_walk::walk::Walk;

#[tactic(auto, unfolding(crate::specs::Stores::store, crate::specs::Stores::store_stated, stmt_walk::specs::Walks::step_pushed, stmt_walk::specs::Walks::pushed_then))]
pub fn store(
    context: &Context<'_>,
    actions: &mut [u64],
    temporaries: &mut [u64],
    to: Access,
    stored: Resolved<Value>,
    walk: Walk,
) -> Result<(usize, Walk), Refusal>
    ensures { stepped (to_step walk result) actions.new temporaries.new ≡ store context.entry.now.section.stream.now context.entry.now.section.table.now actions.old temporaries.old context.entry.now.env to.pointer to.size stored.value stored.next stored.state (to_walk walk) }
{
    let (value, state) = take_stated(
        context.section,
        temporaries,
        stored.value,
        to.size,
        stored.state,
    );
    let store = Operation::binary(operation::STORE, to.pointer, value);
    let st = push_op(context, actions, temporaries, store, no_output(), state)?;
    Ok((stored.next, Walk { st, ..walk }))
}

// Not one function with `store`: this action is no operation, and has its size as its number.
#[tactic(auto, unfolding(crate::specs::Stores::store_register, crate::specs::Stores::register_stated, list_values::specs::Base::then_l, stmt_walk::specs::Walks::pushed_then))]
fn store_register(
    section: Section<'_>,
    actions: &mut [u64],
    temporaries: &mut [u64],
    to: Access,
    stored: Resolved<Value>,
    walk: Walk,
) -> Result<(usize, Walk), Refusal>
    ensures { stepped (to_step walk result) actions.new temporaries.new ≡ store_register section.entry.stream.now section.entry.table.now actions.old temporaries.old to.pointer to.size stored.value stored.next stored.state (to_walk walk) }
{
    let (value, state) = set_stated(section, temporaries, stored.value, to.size, stored.state);
    let store = Operation {
        number: to.size,
        ..Operation::binary(0, to.pointer, value)
    };
    let st = push(actions, action_kind::STORE_REGISTER, store, absent(), state)?;
    Ok((stored.next, Walk { st, ..walk }))
}

#[tactic(auto, unfolding(crate::specs::Stores::store_at))]
fn store_at(
    context: &Context<'_>,
    actions: &mut [u64],
    temporaries: &mut [u64],
    expr: ExprValue,
    stored: Resolved<Value>,
    walk: Walk,
) -> Result<(usize, Walk), Refusal>
    ensures { stepped (to_step walk result) actions.new temporaries.new ≡ store_at context.entry.now.section.stream.now context.entry.now.section.table.now actions.old temporaries.old context.entry.now.env expr stored.value stored.next stored.state (to_walk walk) }
{
    match expr {
        ExprValue::RamRef(to) => store(context, actions, temporaries, to, stored, walk),
        ExprValue::RegisterRef(to) => store_register(
            context.section,
            actions,
            temporaries,
            to,
            stored,
            walk,
        ),
        ExprValue::Local(_)
        | ExprValue::Unbound(_)
        | ExprValue::Const { .. }
        | ExprValue::Apply(_)
        | ExprValue::AddressOf { .. }
        | ExprValue::BitRange(_) => Err(Refusal::StoreToNoAddress),
    }
}

// In the space and of the size that stand at a position.
#[tactic(auto, unfolding(crate::specs::Stores::store_in, expr_terms::specs::Answers::on_expr))]
fn store_in(
    context: &Context<'_>,
    actions: &mut [u64],
    temporaries: &mut [u64],
    pos: usize,
    expr: ExprValue,
    stored: Resolved<Value>,
    walk: Walk,
) -> Result<(usize, Walk), Refusal>
    ensures { stepped (to_step walk result) actions.new temporaries.new ≡ store_in context.entry.now.section.stream.now context.entry.now.section.table.now actions.old temporaries.old context.entry.now.env pos expr stored.value stored.next stored.state (to_walk walk) }
{
    let space = u16_in(context.section.stream, pos, 1);
    let size = u16_in(context.section.stream, pos, 3);
    let pointer = Resolved {
        next: stored.next,
        value: expr,
        state: stored.state,
    };
    let to = resolve_address(context, actions, temporaries, space, size, pointer)?;
    let stored = Resolved {
        next: to.next,
        state: to.state,
        ..stored
    };
    store_at(context, actions, temporaries, to.value, stored, walk)
}

#[tactic(auto, unfolding(crate::specs::Stores::store_pointer, expr_terms::specs::Answers::on_expr))]
fn store_pointer(
    context: &Context<'_>,
    scope: &[u64],
    actions: &mut [u64],
    temporaries: &mut [u64],
    pos: usize,
    stored: Resolved<Value>,
    walk: Walk,
) -> Result<(usize, Walk), Refusal>
    ensures { stepped (to_step walk result) actions.new temporaries.new ≡ store_pointer context.entry.now.section.stream.now context.entry.now.section.table.now scope.now actions.old temporaries.old context.entry.now.env pos stored.value stored.next stored.state (to_walk walk) }
{
    let at = after(pos, 5);
    let state = stored.state;
    let pointer = resolve_expr(DEPTH, context, scope, at, actions, temporaries, state)?;
    let state = pointer.state;
    let stored = Resolved { state, ..stored };
    store_in(
        context,
        actions,
        temporaries,
        pos,
        pointer.value,
        stored,
        walk,
    )
}

// The value stands behind the pointer.
#[tactic(auto, unfolding(crate::specs::Stores::store_statement, expr_terms::specs::Answers::on_operand))]
pub fn store_statement(
    context: &Context<'_>,
    scope: &[u64],
    actions: &mut [u64],
    temporaries: &mut [u64],
    pos: usize,
    walk: Walk,
) -> Result<(usize, Walk), Refusal>
    ensures { stepped (to_step walk result) actions.new temporaries.new ≡ store_statement context.entry.now.section.stream.now context.entry.now.section.table.now scope.now actions.old temporaries.old context.entry.now.env pos (to_walk walk) }
{
    let pointer = after(pos, 5);
    let value_at = skip_expr(context.section.stream, pointer);
    let stored = expr_value(
        DEPTH,
        context,
        scope,
        value_at,
        actions,
        temporaries,
        walk.st,
    )?;
    store_pointer(context, scope, actions, temporaries, pos, stored, walk)
}
