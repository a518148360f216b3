// A pass over actions: the rule of each, applied in place. A push is a pass over the one action that it has pushed, so that
// the rules are compiled into one loop.
ghost use Rattle.std.specs.Prelude.{◌≡◌, ◌<◌};
ghost use Rattle.list_values.specs.Directions.{forwards};
ghost use Rattle.list_values.specs.Sizes.{Counted};
ghost use Rattle.list_pushes.specs.Passes.{action_place, turn, pass};

use crate::rules::update_operand_sizes;
use list_values::sizes::{Direction, Rules, sum_of_errors};
use list_values::value::{Span, place};

// Where the action of an index stands of those from a position on; the first may stand anywhere.
#[tactic(auto, unfolding(crate::specs::Passes::action_place))]
fn action_place(base: usize, index: usize) -> usize
    ensures { result ≡ action_place base index }
{
    if index == 0 { base } else { place(base, index) }
}

// Which action is next after so many of them, forward or backward. So one loop turns both ways: two would have the same body twice,
// since an iterator and its `rev` are two types.
#[tactic(auto, unfolding(crate::specs::Passes::turn))]
fn turn(direction: Direction, count: usize, index: usize) -> usize
    requires { index < count }
    ensures { result ≡ turn (forwards direction) count index }
{
    match direction {
        Direction::Forward => index,
        Direction::Backward => count - 1 - index,
    }
}

// The rule of each of these actions, forward with fallback or backward without: how many errors.
#[tactic(auto, using(crate::proofs::PassLaws::pass_laws))]
pub fn pass(rules: &Rules<'_>, actions: &mut [u64], temporaries: &mut [u64], span: Span) -> u64
    ensures { Counted result actions.new temporaries.new (pass rules.entry.now.sources.section.stream.now rules.entry.now.sources.section.table.now (forwards rules.entry.now.direction) actions.old temporaries.old span.base span.count rules.entry.now.sources.pointer) }
{
    let mut k = 0;
    for i in 0..span.count {
        let at = action_place(span.base, turn(rules.direction, span.count, i));
        k = sum_of_errors(k, update_operand_sizes(rules, actions, temporaries, at));
    }
    k
}
