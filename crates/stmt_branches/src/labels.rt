// Labels. A scope has for each name one more than the number of its label, or 0; 512 more once the label is placed.
ghost use Rattle.std.specs.Prelude.{◌≡◌};
ghost use Rattle.list_values.specs.Base.{listed};
ghost use Rattle.stmt_walk.specs.Outcomes.{to_walk};
ghost use Rattle.stmt_branches.specs.Outcomes.{to_label};
ghost use Rattle.stmt_branches.specs.Labels.{label_place, get_or_insert_label, place_label, resolve_label, labels_after, labelled};

use codes::limit::NAMES;
use codes::refusal::Refusal;
use expr_scope::smalls::{LABELS, put_small, small};
use list_pushes::push::State;
use stmt_walk::walk::Walk;

const MOST_LABELS: u64 = 256;

// What is added to the number of a label that is placed.
const PLACED: u64 = 512;

// Where the number of a name's label stands among the small numbers of a scope.
#[tactic(auto, unfolding(crate::specs::Labels::label_place))]
fn label_place(name: u64) -> usize
    ensures { result ≡ label_place name }
{
    LABELS + (name % NAMES) as usize
}

// The label of a name in a scope, else the next one, up to 256.
#[tactic(auto, unfolding(crate::specs::Labels::get_or_insert_label, crate::specs::Labels::label_or))]
pub fn get_or_insert_label(scope: &mut [u64], name: u64, count: u64) -> Result<u64, Refusal>
    ensures { listed (to_label result) scope.new ≡ get_or_insert_label scope.old name count }
{
    let at = label_place(name);
    let more = small(scope, at) % PLACED;
    if more != 0 {
        return Ok(more - 1);
    }
    if MOST_LABELS <= count {
        return Err(Refusal::TooManyLabels);
    }
    put_small(scope, at, count + 1);
    Ok(count)
}

#[tactic(auto, unfolding(crate::specs::Labels::place_label))]
fn place_label(scope: &mut [u64], id: u64, name: u64) -> Result<u64, Refusal>
    ensures { listed (to_label result) scope.new ≡ place_label scope.old id name }
{
    let at = label_place(name);
    let more = small(scope, at);
    if PLACED <= more {
        return Err(Refusal::LabelTwice);
    }
    put_small(scope, at, more + PLACED);
    Ok(id)
}

// A label is placed once.
#[tactic(auto, unfolding(crate::specs::Labels::resolve_label, crate::specs::Labels::on_label))]
pub fn resolve_label(scope: &mut [u64], name: u64, count: u64) -> Result<u64, Refusal>
    ensures { listed (to_label result) scope.new ≡ resolve_label scope.old name count }
{
    let id = get_or_insert_label(scope, name, count)?;
    place_label(scope, id, name)
}

#[tactic(auto, unfolding(crate::specs::Labels::labels_after))]
fn labels_after(id: u64, labels: u64) -> u64
    ensures { result ≡ labels_after id labels }
{
    if id < labels {
        return labels;
    }
    id.wrapping_add(1)
}

// The walk with a label, and so many more placed.
pub fn labelled(walk: Walk, state: State, id: u64, more: u64) -> Walk
    ensures { to_walk result ≡ labelled id more state (to_walk walk) }
{
    Walk {
        st: state,
        labels: labels_after(id, walk.labels),
        placed: walk.placed.wrapping_add(more),
        ..walk
    }
}
