// The end of a walk: the two passes, the actions finished, the export's size fixed, the size errors counted, the answer.
ghost use Rattle.std.specs.Prelude.{◌≡◌};
ghost use Rattle.list_values.specs.Sizes.{sized};
ghost use Rattle.stmt_walk.specs.Outcomes.{to_walk, to_export};
ghost use Rattle.resolve_answer.specs.Answers.{resolved_to};
ghost use Rattle.resolve_answer.specs.Outcomes.{to_resolved};
ghost use Rattle.resolve_answer.specs.Ends.{judged, finish_export, finish_sized, actions_between, both_passes, finish};

use crate::answer::{Answer, Rejected, accepted, refused};
use codes::refusal::Refusal;
use codes::{action, header};
use expr_scope::scope::Access;
use list_end::end::{finish_actions, fix_size};
use list_end::passes::size_pass;
use list_values::section::Section;
use list_values::sizes::{Direction, Rules, Sizing, Sources};
use list_values::value::{Span, place};
use stmt_walk::walk::{Export, Walk};

// What is to be finished: how many subtables the section has, how many actions stand behind room for their Builds, and the walk
// that pushed them.
#[derive(Clone, Copy)]
struct Ending {
    subtables: usize,
    count: usize,
    walk: Walk,
}

// Size errors refuse the section.
#[tactic(auto, unfolding(crate::specs::Ends::judged))]
fn judged(
    actions: &mut [u64],
    temporaries: &mut [u64],
    ending: Ending,
    export: Export,
    sizing: Sizing,
) -> Result<Answer, Rejected>
    ensures { to_resolved result actions.new temporaries.new ≡ judged actions.old temporaries.old ending.subtables ending.count (to_walk ending.walk) (to_export export) sizing }
{
    if sizing.errors != 0 {
        return Err(Rejected {
            ordinal: Some(sizing.first),
            errors: sizing.errors,
            ..Rejected::from(Refusal::ErrorsRecorded)
        });
    }
    let Ending {
        subtables,
        count,
        walk,
    } = ending;
    Ok(accepted(actions, temporaries, subtables, count, walk, export))
}

#[tactic(auto, unfolding(crate::specs::Ends::finish_export, crate::specs::Ends::judged_fixed))]
fn finish_export(
    sources: &Sources<'_>,
    actions: &mut [u64],
    temporaries: &mut [u64],
    ending: Ending,
    sizing: Sizing,
) -> Result<Answer, Rejected>
    ensures { to_resolved result actions.new temporaries.new ≡ finish_export sources.entry.now.section.stream.now sources.entry.now.section.table.now actions.old temporaries.old ending.subtables ending.count sources.entry.now.pointer (to_walk ending.walk) sizing }
{
    let export = ending.walk.export;
    if export.kind == 0 {
        return judged(actions, temporaries, ending, export, sizing);
    }
    let (pointer, sizing) = fix_size(sources, temporaries, export.to.pointer, sizing);
    let to = Access {
        pointer,
        ..export.to
    };
    judged(
        actions,
        temporaries,
        ending,
        Export { to, ..export },
        sizing,
    )
}

// From the actions with the sizes that the passes found.
#[tactic(auto, unfolding(crate::specs::Ends::finish_sized, crate::specs::Ends::finish_done, list_values::specs::Base::then_l))]
fn finish_sized(
    sources: &Sources<'_>,
    actions: &mut [u64],
    temporaries: &mut [u64],
    ending: Ending,
    sizing: Sizing,
) -> Result<Answer, Rejected>
    ensures { to_resolved result actions.new temporaries.new ≡ finish_sized sources.entry.now.section.stream.now sources.entry.now.section.table.now actions.old temporaries.old ending.subtables ending.count sources.entry.now.pointer (to_walk ending.walk) sizing }
{
    let span = Span {
        base: place(0, ending.subtables),
        count: ending.count,
    };
    let sizing = finish_actions(sources, actions, temporaries, span, sizing)?;
    finish_export(sources, actions, temporaries, ending, sizing)
}

// How many actions stand between two positions.
#[tactic(auto, unfolding(crate::specs::Ends::actions_between))]
fn actions_between(base: usize, end: usize) -> usize
    ensures { result ≡ actions_between base end }
{
    if end < base {
        return 0;
    }
    (end - base) / action::WORDS
}

#[tactic(auto, unfolding(crate::specs::Ends::both_passes, list_values::specs::Sizes::then_s))]
fn both_passes(
    sources: &Sources<'_>,
    actions: &mut [u64],
    temporaries: &mut [u64],
    span: Span,
    sizing: Sizing,
) -> Sizing
    ensures { sized result actions.new temporaries.new ≡ both_passes sources.entry.now.section.stream.now sources.entry.now.section.table.now actions.old temporaries.old span.base span.count sources.entry.now.pointer sizing }
{
    let backward = Rules {
        sources: *sources,
        direction: Direction::Backward,
    };
    let forward = Rules {
        direction: Direction::Forward,
        ..backward
    };
    let back = size_pass(&backward, actions, temporaries, span, sizing);
    size_pass(&forward, actions, temporaries, span, back)
}

#[tactic(auto, unfolding(crate::specs::Ends::finish, crate::specs::Ends::finish_all, list_values::specs::Sizes::then_s))]
fn finished(
    sources: &Sources<'_>,
    actions: &mut [u64],
    temporaries: &mut [u64],
    walk: Walk,
) -> Result<Answer, Rejected>
    ensures { to_resolved result actions.new temporaries.new ≡ finish sources.entry.now.section.stream.now sources.entry.now.section.table.now actions.old temporaries.old sources.entry.now.pointer (to_walk walk) }
{
    let subtables = access::u16_at(sources.section.stream, header::SUBTABLES) as usize;
    let base = place(0, subtables);
    let count = actions_between(base, walk.st.end);
    let span = Span { base, count };
    let sizing = both_passes(sources, actions, temporaries, span, walk.st.sizing);
    let ending = Ending {
        subtables,
        count,
        walk,
    };
    finish_sized(sources, actions, temporaries, ending, sizing)
}

// The end of a walk whole. Where it refuses the section both lists are zero.
pub fn finish(
    section: Section<'_>,
    actions: &mut [u64],
    temporaries: &mut [u64],
    pointer: u64,
    walk: Walk,
) -> Answer
    ensures { resolved_to result actions.new temporaries.new ≡ finish section.entry.stream.now section.entry.table.now actions.old temporaries.old pointer (to_walk walk) }
{
    let sources = Sources { section, pointer };
    match finished(&sources, actions, temporaries, walk) {
        Ok(answer) => answer,
        Err(why) => refused(actions, temporaries, why),
    }
}
