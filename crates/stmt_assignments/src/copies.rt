// Copies: the target is a local, a place in RAM or a range of bits, which keeps the bits around it. The scope stands beside the
// context: a struct of both would be made anew at each call of a statement, which lends the scope as `&mut` between. The position
// is each function's own.
ghost use Rattle.std.specs.Prelude.{◌≡◌, ◌<◌, unwrap_or};
ghost use Rattle.list_pushes.specs.Outcomes.{to_read};
ghost use Rattle.list_pushes.specs.Pushes.{read};
ghost use Rattle.expr_terms.specs.Outcomes.{to_expr};
ghost use Rattle.expr_terms.specs.Answers.{resolved};
ghost use Rattle.stmt_walk.specs.Outcomes.{to_walk, to_step};
ghost use Rattle.stmt_walk.specs.Walks.{stepped, walked};
ghost use Rattle.stmt_assignments.specs.Copies.{targeted, mask_but, merge_bits, insert_in, insert_bits, keep_bits, write_bits, copy_bits, copy_bytes, copy_range, copy_into, target_at, declared, resolve_dst, copy_target, copy_statement};

use crate::stores::store;
use access::u16_in;
use codes::limit::DEPTH;
use codes::refusal::Refusal;
use codes::{NONE, expression, operation};
use expr_reading::read::{byte_aligned, constant, masked, read_operand, read_value, sliced};
use expr_resolver::expr::resolve_expr;
use expr_scope::scope::{BitRange, Bits, ExprValue, named_tmp, plain_local};
use expr_terms::answers::{Resolved, after, given};
use list_pushes::push::{Context, Operation, State, add_tmp, op_to};
use list_values::sizes::size_of;
use list_values::value::Value;
use stmt_walk::walk::Walk;

// All 64 bits but those of a bit write.
#[tactic(auto, using(crate::proofs::CopyLaws::mask_but_law))]
fn mask_but(bits: Bits) -> u64
    requires { bits.from < 64 }
    ensures { result ≡ mask_but bits.from bits.count }
{
    u64::MAX - (access::mask(bits.count) << bits.from)
}

// A write of a value to a range of bits, and the temporary that keeps the bits around it.
#[derive(Clone, Copy)]
pub struct BitWrite {
    pub value: Value,
    pub to: BitRange,
    pub prev: Value,
}

// The bits of the value shifted to their place, and merged with the rest.
#[tactic(auto, unfolding(crate::specs::Copies::merge_bits, list_pushes::specs::Pushes::on_read))]
fn merge_bits(
    context: &Context<'_>,
    actions: &mut [u64],
    temporaries: &mut [u64],
    write: BitWrite,
    tmp: Value,
    state: State,
) -> Result<(Value, State), Refusal>
    ensures { read (to_read result) actions.new temporaries.new ≡ merge_bits context.entry.now.section.stream.now context.entry.now.section.table.now actions.old temporaries.old context.entry.now.env write.to.base write.prev tmp write.to.bits.from state }
{
    let to = write.to;
    let shift = Operation::binary(operation::INT_LEFT, tmp, constant(to.bits.from));
    let (_, state) = op_to(context, actions, temporaries, shift, tmp, state)?;
    let merge = Operation::binary(operation::INT_OR, write.prev, tmp);
    op_to(context, actions, temporaries, merge, to.base, state)
}

// The value's bits in a temporary, and from there in their place.
#[tactic(auto, unfolding(crate::specs::Copies::insert_in, crate::specs::Copies::extend_bits, expr_reading::specs::Reading::masked, list_pushes::specs::Pushes::on_read))]
fn insert_in(
    context: &Context<'_>,
    actions: &mut [u64],
    temporaries: &mut [u64],
    write: BitWrite,
    tmp: Value,
    state: State,
) -> Result<(Value, State), Refusal>
    ensures { read (to_read result) actions.new temporaries.new ≡ insert_in context.entry.now.section.stream.now context.entry.now.section.table.now actions.old temporaries.old context.entry.now.env write.value write.to.base write.prev tmp write.to.bits.from write.to.bits.count state }
{
    let extend = Operation::unary(operation::ZERO_EXTEND, write.value);
    let bits = write.to.bits.count;
    let (_, state) = masked(context, actions, temporaries, extend, tmp, bits, state)?;
    merge_bits(context, actions, temporaries, write, tmp, state)
}

#[tactic(auto, unfolding(crate::specs::Copies::insert_bits, list_pushes::specs::Pushes::on_tmp))]
fn insert_bits(
    context: &Context<'_>,
    actions: &mut [u64],
    temporaries: &mut [u64],
    write: BitWrite,
    state: State,
) -> Result<(Value, State), Refusal>
    ensures { read (to_read result) actions.new temporaries.new ≡ insert_bits context.entry.now.section.stream.now context.entry.now.section.table.now actions.old temporaries.old context.entry.now.env write.value write.to.base write.prev write.to.bits.from write.to.bits.count state }
{
    let size = size_of(context.section, temporaries, write.to.base);
    let (tmp, state) = add_tmp(temporaries, NONE, size, state)?;
    insert_in(context, actions, temporaries, write, tmp, state)
}

// The bits of the target that stay, in a temporary; then those of the value.
#[tactic(auto, unfolding(crate::specs::Copies::keep_bits, list_pushes::specs::Pushes::on_read))]
fn keep_bits(
    context: &Context<'_>,
    actions: &mut [u64],
    temporaries: &mut [u64],
    write: BitWrite,
    state: State,
) -> Result<(Value, State), Refusal>
    requires { write.to.bits.from < 64 }
    ensures { read (to_read result) actions.new temporaries.new ≡ keep_bits context.entry.now.section.stream.now context.entry.now.section.table.now actions.old temporaries.old context.entry.now.env write.value write.to.base write.prev write.to.bits.from write.to.bits.count state }
{
    let to = write.to;
    let kept = Operation::binary(operation::INT_AND, to.base, constant(mask_but(to.bits)));
    let (_, state) = op_to(context, actions, temporaries, kept, write.prev, state)?;
    insert_bits(context, actions, temporaries, write, state)
}

#[tactic(auto, unfolding(crate::specs::Copies::write_bits, list_pushes::specs::Pushes::on_tmp))]
fn write_bits(
    context: &Context<'_>,
    actions: &mut [u64],
    temporaries: &mut [u64],
    value: Value,
    to: BitRange,
    state: State,
) -> Result<(Value, State), Refusal>
    ensures { read (to_read result) actions.new temporaries.new ≡ write_bits context.entry.now.section.stream.now context.entry.now.section.table.now actions.old temporaries.old context.entry.now.env value to.base to.bits.from to.bits.count state }
{
    if 64 <= to.bits.from {
        return Err(Refusal::ShiftTooFar);
    }
    let size = size_of(context.section, temporaries, to.base);
    let (prev, state) = add_tmp(temporaries, NONE, size, state)?;
    let write = BitWrite { value, to, prev };
    keep_bits(context, actions, temporaries, write, state)
}

#[tactic(auto, unfolding(crate::specs::Copies::copy_bits, list_pushes::specs::Pushes::on_read))]
fn copy_bits(
    context: &Context<'_>,
    actions: &mut [u64],
    temporaries: &mut [u64],
    expr: ExprValue,
    to: BitRange,
    state: State,
) -> Result<(Value, State), Refusal>
    ensures { read (to_read result) actions.new temporaries.new ≡ copy_bits context.entry.now.section.stream.now context.entry.now.section.table.now actions.old temporaries.old context.entry.now.env expr to.base to.bits.from to.bits.count state }
{
    let (value, state) = read_operand(context, actions, temporaries, expr, state)?;
    write_bits(context, actions, temporaries, value, to, state)
}

// A range of whole bytes is a slice of the target.
#[tactic(auto, unfolding(crate::specs::Copies::copy_bytes, crate::specs::Copies::read_sliced))]
fn copy_bytes(
    context: &Context<'_>,
    actions: &mut [u64],
    temporaries: &mut [u64],
    expr: ExprValue,
    to: BitRange,
    state: State,
) -> Result<(Value, State), Refusal>
    ensures { read (to_read result) actions.new temporaries.new ≡ copy_bytes context.entry.now.section.stream.now context.entry.now.section.table.now actions.old temporaries.old context.entry.now.env expr to.base to.bits.from to.bits.count state }
{
    let (slice, state) = sliced(to.base, to.bits.from / 8, to.bits.count / 8, state)?;
    read_value(context, actions, temporaries, expr, Some(slice), state)
}

#[tactic(auto, unfolding(crate::specs::Copies::copy_range))]
fn copy_range(
    context: &Context<'_>,
    actions: &mut [u64],
    temporaries: &mut [u64],
    expr: ExprValue,
    to: BitRange,
    state: State,
) -> Result<(Value, State), Refusal>
    ensures { read (to_read result) actions.new temporaries.new ≡ copy_range context.entry.now.section.stream.now context.entry.now.section.table.now actions.old temporaries.old context.entry.now.env expr to.base to.bits.from to.bits.count state }
{
    if byte_aligned(to.bits) {
        return copy_bytes(context, actions, temporaries, expr, to, state);
    }
    copy_bits(context, actions, temporaries, expr, to, state)
}

// The source is read into a local, or into a place in RAM or a range of bits of one.
#[tactic(auto, unfolding(crate::specs::Copies::copy_into, crate::specs::Copies::copy_ram, list_pushes::specs::Pushes::on_read, stmt_walk::specs::Walks::step_read, stmt_walk::specs::Walks::read_then))]
fn copy_into(
    context: &Context<'_>,
    actions: &mut [u64],
    temporaries: &mut [u64],
    source: ExprValue,
    target: Resolved<ExprValue>,
    walk: Walk,
) -> Result<(usize, Walk), Refusal>
    ensures { stepped (to_step walk result) actions.new temporaries.new ≡ copy_into context.entry.now.section.stream.now context.entry.now.section.table.now actions.old temporaries.old context.entry.now.env source target.value target.next target.state (to_walk walk) }
{
    let next = target.next;
    let state = target.state;
    let (_, st) = match target.value {
        ExprValue::Local(v) => {
            read_value(context, actions, temporaries, source, Some(v), state)?
        }
        ExprValue::BitRange(to) => copy_range(context, actions, temporaries, source, to, state)?,
        ExprValue::RamRef(to) => {
            let (value, state) = read_operand(context, actions, temporaries, source, state)?;
            let stored = Resolved { value, next, state };
            return store(context, actions, temporaries, to, stored, walk);
        }
        ExprValue::Unbound(_)
        | ExprValue::Const { .. }
        | ExprValue::Apply(_)
        | ExprValue::RegisterRef(_)
        | ExprValue::AddressOf { .. } => return Err(Refusal::NotAssignable),
    };
    Ok((next, Walk { st, ..walk }))
}

// A target that is a name: the size that it is truncated to, unless it is bare, and where it ends.
#[derive(Clone, Copy)]
pub struct Target {
    pub name: u64,
    pub size: Option<u64>,
    pub next: usize,
}

#[tactic(auto, unfolding(crate::specs::Copies::target_at, crate::specs::Copies::target_name, crate::specs::Copies::truncated, crate::specs::Copies::after_target, expr_terms::specs::Answers::given))]
fn target_at(stream: &[u8], pos: usize) -> Option<Target>
    ensures { result ≡ target_at stream.now pos }
{
    let code = access::byte(stream, pos, 0);
    if code == expression::IDENT {
        return Some(Target {
            name: given(u16_in(stream, pos, 1))?,
            size: None,
            next: after(pos, 3),
        });
    }
    if code == expression::TRUNCATE && access::byte(stream, pos, 1) == expression::IDENT {
        return Some(Target {
            name: given(u16_in(stream, pos, 2))?,
            size: Some(u16_in(stream, pos, 4)),
            next: after(pos, 6),
        });
    }
    None
}

// A temporary of the target's name.
#[tactic(auto, unfolding(crate::specs::Copies::declared, list_pushes::specs::Pushes::on_read))]
fn new_target(
    context: &Context<'_>,
    scope: &mut [u64],
    temporaries: &mut [u64],
    target: Target,
    state: State,
) -> Result<Resolved<ExprValue>, Refusal>
    ensures { resolved (to_expr result) scope.new temporaries.new ≡ declared context.entry.now.section.table.now scope.old temporaries.old context.entry.now.env target.name (unwrap_or target.size 65535) target.next state }
{
    let size = target.size.unwrap_or(NONE);
    let (tmp, state) = named_tmp(context, scope, temporaries, target.name, size, state)?;
    Ok(Resolved {
        next: target.next,
        value: ExprValue::Local(tmp),
        state,
    })
}

// An unknown or disallowed name as target becomes a temporary. A bare one that is a plain local's, the usual target, is that local.
#[tactic(auto, using(crate::proofs::CopyLaws::target_laws))]
fn resolve_dst(
    context: &Context<'_>,
    scope: &mut [u64],
    actions: &mut [u64],
    temporaries: &mut [u64],
    pos: usize,
    state: State,
) -> Result<Resolved<ExprValue>, Refusal>
    ensures { targeted (to_expr result) scope.new actions.new temporaries.new ≡ resolve_dst context.entry.now.section.stream.now context.entry.now.section.table.now scope.old actions.old temporaries.old context.entry.now.env pos state }
{
    if let Some(target) = target_at(context.section.stream, pos) {
        match plain_local(context, scope, target.name) {
            Err(_) => return new_target(context, scope, temporaries, target, state),
            Ok(Some(local)) if target.size.is_none() => {
                return Ok(Resolved {
                    next: target.next,
                    value: ExprValue::Local(local),
                    state,
                });
            }
            Ok(Some(_)) | Ok(None) => {}
        }
    }
    resolve_expr(DEPTH, context, scope, pos, actions, temporaries, state)
}

#[tactic(auto, unfolding(crate::specs::Copies::copy_target, crate::specs::Copies::on_target, stmt_walk::specs::Walks::beside_p))]
fn copy_target(
    context: &Context<'_>,
    scope: &mut [u64],
    actions: &mut [u64],
    temporaries: &mut [u64],
    source: Resolved<ExprValue>,
    walk: Walk,
) -> Result<(usize, Walk), Refusal>
    ensures { walked (to_step walk result) scope.new actions.new temporaries.new ≡ copy_target context.entry.now.section.stream.now context.entry.now.section.table.now scope.old actions.old temporaries.old context.entry.now.env source.value source.next source.state (to_walk walk) }
{
    let target = resolve_dst(
        context,
        scope,
        actions,
        temporaries,
        source.next,
        source.state,
    )?;
    copy_into(context, actions, temporaries, source.value, target, walk)
}

#[tactic(auto, unfolding(crate::specs::Copies::copy_statement, expr_terms::specs::Answers::on_expr))]
pub fn copy_statement(
    context: &Context<'_>,
    scope: &mut [u64],
    actions: &mut [u64],
    temporaries: &mut [u64],
    pos: usize,
    walk: Walk,
) -> Result<(usize, Walk), Refusal>
    ensures { walked (to_step walk result) scope.new actions.new temporaries.new ≡ copy_statement context.entry.now.section.stream.now context.entry.now.section.table.now scope.old actions.old temporaries.old context.entry.now.env pos (to_walk walk) }
{
    let at = after(pos, 1);
    let source = resolve_expr(DEPTH, context, scope, at, actions, temporaries, walk.st)?;
    copy_target(context, scope, actions, temporaries, source, walk)
}
