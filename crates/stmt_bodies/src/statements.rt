// Statements and macro bodies, which resolve each other: a macro call one level deeper. Codes stay the bytes of the stream, as in
// expressions. The scope stands beside the context: a struct of both would be made anew at each call of a statement, which lends
// the scope as `&mut` between. The position is each function's own.
ghost use Rattle.std.specs.Prelude.{◌≡◌};
ghost use Rattle.stmt_walk.specs.Outcomes.{to_walk, to_step, to_steps};
ghost use Rattle.stmt_walk.specs.Walks.{stepped, walked};
ghost use Rattle.stmt_bodies.specs.Outcomes.{to_begun};
ghost use Rattle.stmt_bodies.specs.Statements.{simple, other_statement, begun, begin, macro_env, body_at, first_ordinal, call_statement, macro_statement, enter_macro, resolve_statement, forward, resolve_body};

use access::u16_in;
use codes::limit::MACROS;
use codes::refusal::Refusal;
use codes::{statement, table};
use expr_scope::smalls::SCOPE_WORDS;
use expr_terms::answers::after;
use expr_terms::calls::Call;
use list_pushes::push::{Context, Env, State};
use list_values::sizes::Sizing;
use stmt_assignments::copies::copy_statement;
use stmt_assignments::stores::store_statement;
use stmt_branches::branches::{branch, cond_branch, label_statement};
use stmt_simple::calls::{Called, called_of, delay_slot, macro_args, macro_at, user_op_statement};
use stmt_simple::simple::{
    build, export_statement, local_assignment, local_statement, unimplemented,
};
use stmt_walk::walk::{Stopped, Walk, stop};

const MOST_STATEMENTS: u64 = 4096;

#[tactic(auto, unfolding(crate::specs::Statements::simple, crate::specs::Statements::beside_a, stmt_walk::specs::Walks::beside_p, list_values::specs::Base::then_l))]
fn simple(
    code: u64,
    context: &Context<'_>,
    scope: &mut [u64],
    actions: &mut [u64],
    temporaries: &mut [u64],
    pos: usize,
    walk: Walk,
) -> Result<(usize, Walk), Refusal>
    ensures { walked (to_step walk result) scope.new actions.new temporaries.new ≡ simple code context.entry.now.section.stream.now context.entry.now.section.table.now scope.old actions.old temporaries.old context.entry.now.env pos (to_walk walk) }
{
    match code {
        statement::UNIMPLEMENTED => { unimplemented(context, actions, temporaries, pos, walk) }
        statement::EXPORT => { export_statement(context, scope, actions, temporaries, pos, walk) }
        statement::LOCAL => local_statement(context, scope, temporaries, pos, walk),
        statement::LOCAL_ASSIGNMENT => {
            local_assignment(context, scope, actions, temporaries, pos, walk)
        }
        statement::BUILD => build(context.section, actions, pos, walk),
        statement::COPY => copy_statement(context, scope, actions, temporaries, pos, walk),
        _ => store_statement(context, scope, actions, temporaries, pos, walk),
    }
}

// A statement that is no call.
#[tactic(auto, unfolding(crate::specs::Statements::other_statement))]
fn other_statement(
    code: u64,
    context: &Context<'_>,
    scope: &mut [u64],
    actions: &mut [u64],
    temporaries: &mut [u64],
    pos: usize,
    walk: Walk,
) -> Result<(usize, Walk), Stopped>
    ensures { walked (to_steps result) scope.new actions.new temporaries.new ≡ other_statement code context.entry.now.section.stream.now context.entry.now.section.table.now scope.old actions.old temporaries.old context.entry.now.env pos (to_walk walk) }
{
    match code {
        statement::BRANCH => branch(context, scope, actions, temporaries, pos, walk),
        statement::COND_BRANCH => { cond_branch(context, scope, actions, temporaries, pos, walk) }
        statement::LABEL => label_statement(
            context,
            scope,
            actions,
            temporaries,
            pos,
            walk,
        ).map_err(|refusal| stop(walk, u64::from(refusal))),
        _ => simple(code, context, scope, actions, temporaries, pos, walk).map_err(|refusal| stop(
            walk,
            u64::from(refusal),
        )),
    }
}

fn begun(walk: Walk, ordinal: u64, statements: u64) -> Walk
    ensures { to_walk result ≡ begun ordinal statements (to_walk walk) }
{
    let st = walk.st;
    Walk {
        st: State {
            sizing: Sizing {
                begun: ordinal,
                ..st.sizing
            },
            ..st
        },
        statements,
        ..walk
    }
}

// A statement begins: it has its ordinal, may not follow an export, and is counted up to 4,096.
#[tactic(auto, unfolding(crate::specs::Statements::begin))]
fn begin(walk: Walk, ordinal: u64) -> Result<Walk, Stopped>
    ensures { to_begun result ≡ begin ordinal (to_walk walk) }
{
    if walk.export.kind != 0 {
        return Err(Stopped {
            refusal: u64::from(Refusal::AfterExport),
            ordinal,
        });
    }
    if MOST_STATEMENTS <= walk.statements {
        return Err(Stopped {
            refusal: u64::from(Refusal::TooManyStatements),
            ordinal,
        });
    }
    Ok(begun(walk, ordinal, walk.statements + 1))
}

// A macro's parameters, locals and labels stand in the words of its own call.
fn macro_env(env: Env, count: u64) -> Env
    ensures { result ≡ macro_env count env }
{
    Env {
        own: false,
        count: count as usize,
        ..env
    }
}

// Where the body of a macro with so many parameters begins, behind their names.
#[tactic(auto, unfolding(crate::specs::Statements::body_at))]
fn body_at(at: usize, parameters: u64) -> usize
    ensures { result ≡ body_at at parameters }
{
    after(at, 1 + 2 * (parameters % 16) as usize)
}

// The ordinal of the first statement of the macro of a number.
#[tactic(auto, unfolding(crate::specs::Statements::first_ordinal))]
fn first_ordinal(table: &[u16; table::LENGTH], id: u64) -> u64
    ensures { result ≡ first_ordinal table.now id }
{
    u64::from(access::get(table, table::MACRO_ORDINALS + (id % MACROS) as usize))
}

// The body of a macro, whose parameters are bound in the words of its scope.
#[cycle(body_call_statement_enter_macro_statement_statement)]
#[tactic(auto, using(crate::proofs::StatementLaws::enter_laws))]
fn enter(
    deep: u64,
    context: &Context<'_>,
    scope: &mut [u64],
    actions: &mut [u64],
    temporaries: &mut [u64],
    call: Call,
    next: usize,
    state: State,
    walk: Walk,
) -> Result<(usize, Walk), Stopped>
    ensures { walked (to_steps result) scope.new actions.new temporaries.new ≡ enter_macro deep context.entry.now.section.stream.now context.entry.now.section.table.now scope.old actions.old temporaries.old context.entry.now.env call.id call.arguments next state (to_walk walk) }
{
    if deep == 0 {
        return Err(stop(walk, u64::from(Refusal::MacroTooDeep)));
    }
    let start = body_at(macro_at(context.section.table, call.id), call.arguments);
    let count = u16_in(context.section.stream, start, 0);
    let inner = Context {
        env: macro_env(context.env, call.arguments),
        ..*context
    };
    let first = first_ordinal(context.section.table, call.id);
    let from = after(start, 2);
    let walk = Walk { st: state, ..walk };
    let (_, walk) = body(
        deep - 1,
        &inner,
        scope,
        actions,
        temporaries,
        from,
        count,
        first,
        walk,
    )?;
    Ok((next, walk))
}

#[cycle(body_call_statement_enter_macro_statement_statement)]
#[tactic(auto, unfolding(crate::specs::Statements::macro_statement, expr_terms::specs::Answers::on_args, stmt_walk::specs::Walks::without_p))]
fn macro_statement(
    deep: u64,
    context: &Context<'_>,
    scope: &[u64],
    actions: &mut [u64],
    temporaries: &mut [u64],
    pos: usize,
    call: Call,
    walk: Walk,
) -> Result<(usize, Walk), Stopped>
    ensures { stepped (to_steps result) actions.new temporaries.new ≡ macro_statement (enter_macro deep context.entry.now.section.stream.now context.entry.now.section.table.now) context.entry.now.section.stream.now context.entry.now.section.table.now scope.now actions.old temporaries.old context.entry.now.env pos call.id call.arguments (to_walk walk) }
{
    let mut inner = [0u64; SCOPE_WORDS];
    let (next, state) = macro_args(
        context,
        scope,
        actions,
        temporaries,
        &mut inner,
        pos,
        call,
        walk.st,
    )
    .map_err(|refusal| stop(walk, u64::from(refusal)))?;
    enter(
        deep,
        context,
        &mut inner,
        actions,
        temporaries,
        call,
        next,
        state,
        walk,
    )
}

#[cycle(body_call_statement_enter_macro_statement_statement)]
#[tactic(auto, unfolding(crate::specs::Statements::call_statement, crate::specs::Statements::call_named, list_values::specs::Base::then_l))]
fn call_statement(
    deep: u64,
    context: &Context<'_>,
    scope: &[u64],
    actions: &mut [u64],
    temporaries: &mut [u64],
    pos: usize,
    walk: Walk,
) -> Result<(usize, Walk), Stopped>
    ensures { stepped (to_steps result) actions.new temporaries.new ≡ call_statement (enter_macro deep context.entry.now.section.stream.now context.entry.now.section.table.now) context.entry.now.section.stream.now context.entry.now.section.table.now scope.now actions.old temporaries.old context.entry.now.env pos (to_walk walk) }
{
    let arguments = access::byte(context.section.stream, pos, 3);
    let name = u16_in(context.section.stream, pos, 1);
    match called_of(context.section, name).map_err(|refusal| stop(walk, u64::from(refusal)))? {
        Called::DelaySlot => delay_slot(
            context.section.stream,
            actions,
            pos,
            arguments,
            walk,
        ).map_err(|refusal| stop(walk, u64::from(refusal))),
        Called::UserOp(id) => {
            let call = Call { id, arguments };
            user_op_statement(context, scope, actions, temporaries, pos, call, walk).map_err(
                |refusal| stop(walk, u64::from(refusal)),
            )
        }
        Called::Macro(id) => {
            let call = Call { id, arguments };
            macro_statement(deep, context, scope, actions, temporaries, pos, call, walk)
        }
    }
}

#[cycle(body_call_statement_enter_macro_statement_statement)]
#[tactic(auto, unfolding(crate::specs::Statements::resolve_statement, crate::specs::Statements::statement_begun, crate::specs::Statements::statement_by, stmt_walk::specs::Walks::beside_p))]
fn statement(
    deep: u64,
    context: &Context<'_>,
    scope: &mut [u64],
    actions: &mut [u64],
    temporaries: &mut [u64],
    pos: usize,
    ordinal: u64,
    walk: Walk,
) -> Result<(usize, Walk), Stopped>
    ensures { walked (to_steps result) scope.new actions.new temporaries.new ≡ resolve_statement (enter_macro deep context.entry.now.section.stream.now context.entry.now.section.table.now) context.entry.now.section.stream.now context.entry.now.section.table.now context.entry.now.env pos ordinal scope.old actions.old temporaries.old (to_walk walk) }
{
    let walk = begin(walk, ordinal)?;
    let code = access::byte(context.section.stream, pos, 0);
    if code == statement::CALL {
        return call_statement(deep, context, scope, actions, temporaries, pos, walk);
    }
    other_statement(code, context, scope, actions, temporaries, pos, walk)
}

// Whether a statement that begins at a position ends behind it, inside the stream, as every one of an accepted stream does.
#[tactic(auto, unfolding(crate::specs::Statements::forward))]
fn forward(pos: usize, next: usize, len: usize) -> bool
    ensures { result ≡ forward pos next len }
{
    pos < next && next <= len
}

// So many statements from a position on, the first with that ordinal; macro calls so deep at most. From one statement to the next
// the bytes left of the stream fall, as the rules of the project want it, so the turns are no `for`; a statement that took
// none would be refused as cut.
#[cycle(body_call_statement_enter_macro_statement_statement)]
#[tactic(auto, using(crate::proofs::StatementLaws::body_laws))]
pub fn body(
    deep: u64,
    context: &Context<'_>,
    scope: &mut [u64],
    actions: &mut [u64],
    temporaries: &mut [u64],
    pos: usize,
    count: u64,
    ordinal: u64,
    walk: Walk,
) -> Result<(usize, Walk), Stopped>
    ensures { walked (to_steps result) scope.new actions.new temporaries.new ≡ resolve_body deep context.entry.now.section.stream.now context.entry.now.section.table.now scope.old actions.old temporaries.old context.entry.now.env pos count ordinal (to_walk walk) }
{
    let mut at = pos;
    let mut walk = walk;
    let mut i = 0;
    while i < count {
        let own = ordinal.wrapping_add(i);
        let (next, walked) = statement(deep, context, scope, actions, temporaries, at, own, walk)?;
        if !forward(at, next, context.section.stream.len()) {
            return Err(stop(walked, u64::from(Refusal::Malformed)));
        }
        at = next;
        walk = walked;
        i += 1;
    }
    Ok((at, walk))
}
