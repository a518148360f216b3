// Statements of one step: unimplemented, the export, locals, and builds. The scope stands beside the context: a struct of both
// would be made anew at each call of a statement, which lends the scope as `&mut` between. The position is each function's own.
ghost use Rattle.std.specs.Prelude.{◌≡◌, ◌<◌, unwrap_or, IfSome};
ghost use Rattle.list_values.specs.Base.{listed};
ghost use Rattle.stmt_walk.specs.Outcomes.{to_walk, to_step};
ghost use Rattle.stmt_walk.specs.Walks.{stepped, walked};
ghost use Rattle.stmt_simple.specs.Simple.{unimplemented, export_of, export_statement, local_statement, assign, local_assignment, find_subtable, build_table, build};

use access::u16_in;
use codes::limit::DEPTH;
use codes::list::List;
use codes::refusal::Refusal;
use codes::{action_kind, export_kind, header, operation, table};
use expr_reading::read::{read_operand, read_value};
use expr_resolver::expr::resolve_expr;
use expr_scope::scope::{Access, ExprValue, named_tmp};
use expr_scope::symbols::{Symbol, lookup};
use expr_terms::answers::{Resolved, after};
use list_pushes::push::{Context, Operation, State, push, push_op};
use list_values::section::Section;
use list_values::sizes::entry;
use list_values::value::{Value, absent, no_output};
use stmt_walk::walk::{Export, Walk};

#[tactic(auto, unfolding(crate::specs::Simple::unimplemented, stmt_walk::specs::Walks::step_pushed, stmt_walk::specs::Walks::pushed_then))]
pub fn unimplemented(
    context: &Context<'_>,
    actions: &mut [u64],
    temporaries: &mut [u64],
    pos: usize,
    walk: Walk,
) -> Result<(usize, Walk), Refusal>
    ensures { stepped (to_step walk result) actions.new temporaries.new ≡ unimplemented context.entry.now.section.stream.now context.entry.now.section.table.now actions.old temporaries.old context.entry.now.env pos (to_walk walk) }
{
    let invalid = Operation::nullary(operation::INVALID);
    let st = push_op(context, actions, temporaries, invalid, no_output(), walk.st)?;
    Ok((after(pos, 1), Walk { st, ..walk }))
}

// A reference stays one, anything else is read.
#[tactic(auto, unfolding(crate::specs::Simple::export_of, crate::specs::Simple::export_read, crate::specs::Simple::export_value, stmt_walk::specs::Walks::step_read))]
fn export_of(
    context: &Context<'_>,
    actions: &mut [u64],
    temporaries: &mut [u64],
    expr: Resolved<ExprValue>,
    walk: Walk,
) -> Result<(usize, Walk), Refusal>
    ensures { stepped (to_step walk result) actions.new temporaries.new ≡ export_of context.entry.now.section.stream.now context.entry.now.section.table.now actions.old temporaries.old context.entry.now.env expr.value expr.next expr.state (to_walk walk) }
{
    let Resolved { next, value, state } = expr;
    let (kind, to, st) = match value {
        ExprValue::RamRef(to) => (export_kind::RAM_REF, to, state),
        ExprValue::RegisterRef(to) => (export_kind::REGISTER_REF, to, state),
        ExprValue::Local(_)
        | ExprValue::Unbound(_)
        | ExprValue::Const { .. }
        | ExprValue::Apply(_)
        | ExprValue::AddressOf { .. }
        | ExprValue::BitRange(_) => {
            let (pointer, st) = read_operand(context, actions, temporaries, value, state)?;
            (export_kind::VALUE, Access { pointer, size: 0 }, st)
        }
    };
    let export = Export { kind, to };
    Ok((next, Walk { st, export, ..walk }))
}

#[tactic(auto, unfolding(crate::specs::Simple::export_statement, expr_terms::specs::Answers::on_expr))]
pub fn export_statement(
    context: &Context<'_>,
    scope: &[u64],
    actions: &mut [u64],
    temporaries: &mut [u64],
    pos: usize,
    walk: Walk,
) -> Result<(usize, Walk), Refusal>
    ensures { stepped (to_step walk result) actions.new temporaries.new ≡ export_statement context.entry.now.section.stream.now context.entry.now.section.table.now scope.now actions.old temporaries.old context.entry.now.env pos (to_walk walk) }
{
    let at = after(pos, 1);
    let expr = resolve_expr(DEPTH, context, scope, at, actions, temporaries, walk.st)?;
    export_of(context, actions, temporaries, expr, walk)
}

#[tactic(auto, unfolding(crate::specs::Simple::local_statement, stmt_walk::specs::Walks::step_read, stmt_walk::specs::Walks::read_then))]
pub fn local_statement(
    context: &Context<'_>,
    scope: &mut [u64],
    temporaries: &mut [u64],
    pos: usize,
    walk: Walk,
) -> Result<(usize, Walk), Refusal>
    ensures { stepped (to_step walk result) scope.new temporaries.new ≡ local_statement context.entry.now.section.stream.now context.entry.now.section.table.now scope.old temporaries.old context.entry.now.env pos (to_walk walk) }
{
    let name = u16_in(context.section.stream, pos, 1);
    let size = u16_in(context.section.stream, pos, 3);
    let (_, st) = named_tmp(context, scope, temporaries, name, size, walk.st)?;
    Ok((after(pos, 5), Walk { st, ..walk }))
}

// An expression at a position read into a target.
#[tactic(auto, unfolding(crate::specs::Simple::assign, expr_terms::specs::Answers::on_expr, stmt_walk::specs::Walks::step_read, stmt_walk::specs::Walks::read_then))]
fn assign(
    context: &Context<'_>,
    scope: &[u64],
    actions: &mut [u64],
    temporaries: &mut [u64],
    pos: usize,
    to: Value,
    state: State,
    walk: Walk,
) -> Result<(usize, Walk), Refusal>
    ensures { stepped (to_step walk result) actions.new temporaries.new ≡ assign context.entry.now.section.stream.now context.entry.now.section.table.now scope.now actions.old temporaries.old context.entry.now.env pos to state (to_walk walk) }
{
    let expr = resolve_expr(DEPTH, context, scope, pos, actions, temporaries, state)?;
    let (_, st) = read_value(
        context,
        actions,
        temporaries,
        expr.value,
        Some(to),
        expr.state,
    )?;
    Ok((expr.next, Walk { st, ..walk }))
}

#[tactic(auto, unfolding(crate::specs::Simple::local_assignment, list_pushes::specs::Pushes::on_read, stmt_walk::specs::Walks::beside_p))]
pub fn local_assignment(
    context: &Context<'_>,
    scope: &mut [u64],
    actions: &mut [u64],
    temporaries: &mut [u64],
    pos: usize,
    walk: Walk,
) -> Result<(usize, Walk), Refusal>
    ensures { walked (to_step walk result) scope.new actions.new temporaries.new ≡ local_assignment context.entry.now.section.stream.now context.entry.now.section.table.now scope.old actions.old temporaries.old context.entry.now.env pos (to_walk walk) }
{
    let name = u16_in(context.section.stream, pos, 1);
    let size = u16_in(context.section.stream, pos, 3);
    let (to, state) = named_tmp(context, scope, temporaries, name, size, walk.st)?;
    let at = after(pos, 5);
    assign(context, scope, actions, temporaries, at, to, state, walk)
}

// The first of so many subtables that has this table.
fn find_subtable(section: Section<'_>, count: u64, wanted: u64) -> Option<u64>
    ensures within { IfSome result (λ i. i < count) }
    ensures found { unwrap_or result count ≡ find_subtable count 0 section.entry.stream.now section.entry.table.now wanted }
{
    (0..count).find(|&i| {
        let at = entry(section.table, usize::from(List::Subtables), i % 65536 * 4);
        u16_in(section.stream, at, 2) == wanted
    })
}

#[tactic(auto, unfolding(crate::specs::Simple::build_table, crate::specs::Simple::build_subtable, list_values::specs::Base::then_l, stmt_walk::specs::Walks::pushed_then))]
fn build_table(
    section: Section<'_>,
    actions: &mut [u64],
    wanted: u64,
    pos: usize,
    walk: Walk,
) -> Result<(usize, Walk), Refusal>
    ensures { listed (to_step walk result) actions.new ≡ build_table section.entry.stream.now section.entry.table.now actions.old wanted pos (to_walk walk) }
{
    let count = access::u16_at(section.stream, header::SUBTABLES);
    let number = find_subtable(section, count, wanted).ok_or(Refusal::AbsentTable)?;
    let build = Operation {
        number,
        ..Operation::nullary(0)
    };
    let st = push(actions, action_kind::BUILD, build, absent(), walk.st)?;
    Ok((after(pos, 3), Walk { st, ..walk }))
}

#[tactic(auto, unfolding(crate::specs::Simple::build, crate::specs::Simple::build_symbol))]
pub fn build(
    section: Section<'_>,
    actions: &mut [u64],
    pos: usize,
    walk: Walk,
) -> Result<(usize, Walk), Refusal>
    ensures { listed (to_step walk result) actions.new ≡ build section.entry.stream.now section.entry.table.now actions.old pos (to_walk walk) }
{
    let name = u16_in(section.stream, pos, 1);
    match lookup(section.table, name).ok_or(Refusal::Undefined)? {
        Symbol::Table(wanted) => build_table(section, actions, wanted, pos, walk),
        Symbol::Space(_)
        | Symbol::Register(_)
        | Symbol::BitRange(_)
        | Symbol::UserOp(_)
        | Symbol::Macro(_)
        | Symbol::Other(_) => Err(Refusal::WrongKind),
    }
}
