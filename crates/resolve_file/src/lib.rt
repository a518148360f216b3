// A section file resolved into lent lists: the file is read, its statements are walked, the end is run. After a refusal both
// lists are zero.
#![tactic(auto)]

ghost use Rattle.std.specs.Prelude.{◌≡◌};
ghost use Rattle.stmt_walk.specs.Outcomes.{to_walk, to_steps};
ghost use Rattle.stmt_walk.specs.Walks.{stepped};
ghost use Rattle.resolve_answer.specs.Answers.{resolved_to};
ghost use Rattle.resolve_answer.specs.Outcomes.{to_resolved};
ghost use Rattle.resolve_file.specs.Files.{pointer_size, at_start, start_env, walk_section, resolve_section, resolve_file};

use codes::list::List;
use codes::refusal::Refusal;
use codes::{NONE, action, header, table};
use expr_scope::scope::Access;
use expr_scope::smalls::SCOPE_WORDS;
use expr_terms::answers::given;
use list_pushes::push::{Context, Env, State};
use list_values::section::Section;
use list_values::sizes::{Sizing, entry};
use list_values::value::{absent, place};
use resolve_answer::answer::{Answer, Rejected, refused};
use resolve_answer::finish::finish;
use section::with_section;
use stmt_bodies::statements::body;
use stmt_walk::walk::{Export, Stopped, Walk};

pub mod section;

// How deep macro calls go at most.
const DEPTH: u64 = 16;

// The size of the default space's pointers, 8 where there is none.
#[tactic(auto, unfolding(crate::specs::Files::pointer_size, expr_terms::specs::Answers::given))]
pub fn pointer_size(section: Section<'_>) -> u64
    ensures { result ≡ pointer_size section.entry.stream.now section.entry.table.now }
{
    let Some(space) = given(access::u16_at(section.stream, header::DEFAULT_SPACE)) else {
        return 8;
    };
    let at = entry(section.table, usize::from(List::Spaces), space * 5 + 3);
    access::u16_at(section.stream, at)
}

// Actions begin behind room for the Builds of all subtables.
fn at_start(subtables: usize) -> Walk
    ensures { to_walk result ≡ at_start subtables }
{
    Walk {
        st: State {
            end: place(0, subtables),
            temporaries: 0,
            sizing: Sizing {
                begun: NONE,
                errors: 0,
                first: NONE,
            },
        },
        labels: 0,
        placed: 0,
        statements: 0,
        export: Export {
            kind: 0,
            to: Access {
                pointer: absent(),
                size: 0,
            },
        },
    }
}

fn start_env(pointer: u64) -> Env
    ensures { result ≡ start_env pointer }
{
    Env {
        pointer,
        own: true,
        count: 0,
    }
}

// The section's own statements, which have no parameters, with macro calls 16 deep at most.
#[tactic(auto, unfolding(crate::specs::Files::walk_section, stmt_walk::specs::Walks::without_p))]
fn walk_section(
    section: Section<'_>,
    actions: &mut [u64],
    temporaries: &mut [u64],
    subtables: usize,
    pointer: u64,
) -> Result<(usize, Walk), Stopped>
    ensures { stepped (to_steps result) actions.new temporaries.new ≡ walk_section section.entry.stream.now section.entry.table.now actions.old temporaries.old subtables pointer }
{
    let mut scope = [0u64; SCOPE_WORDS];
    let table = section.table;
    let pos = usize::from(access::get(table, table::STATEMENTS));
    let count = access::u16_at(section.stream, header::STATEMENTS);
    let ordinal = u64::from(access::get(table, table::FIRST_ORDINAL));
    let context = Context {
        section,
        env: start_env(pointer),
    };
    let walk = at_start(subtables);
    body(
        DEPTH,
        &context,
        &mut scope,
        actions,
        temporaries,
        pos,
        count,
        ordinal,
        walk,
    )
}

#[tactic(auto, unfolding(crate::specs::Files::resolve_section, crate::specs::Files::resolve_walked))]
fn resolve_section(
    section: Section<'_>,
    actions: &mut [u64],
    temporaries: &mut [u64],
) -> Result<Answer, Rejected>
    ensures { to_resolved result actions.new temporaries.new ≡ resolve_section section.entry.stream.now section.entry.table.now actions.old temporaries.old }
{
    let subtables = access::u16_at(section.stream, header::SUBTABLES) as usize;
    if actions.len() / action::WORDS < subtables {
        return Err(Rejected::from(Refusal::ListFull));
    }
    let pointer = pointer_size(section);
    let (_, walk) = walk_section(section, actions, temporaries, subtables, pointer)?;
    Ok(finish(section, actions, temporaries, pointer, walk))
}

#[tactic(auto, using(crate::proofs::FileLaws::file_laws))]
fn resolve_read(
    file: &[u8],
    actions: &mut [u64],
    temporaries: &mut [u64],
) -> Result<Answer, Rejected>
    ensures { to_resolved result actions.new temporaries.new ≡ resolve_file file.now actions.old temporaries.old }
{
    with_section(
        file,
        &mut |section: Section<'_>| resolve_section(section, actions, temporaries),
    )?
}

pub fn resolve_words(file: &[u8], actions: &mut [u64], temporaries: &mut [u64]) -> Answer
    ensures { resolved_to result actions.new temporaries.new ≡ resolve_file file.now actions.old temporaries.old }
{
    match resolve_read(file, actions, temporaries) {
        Ok(answer) => answer,
        Err(why) => refused(actions, temporaries, why),
    }
}
