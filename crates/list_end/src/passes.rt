// A pass over the actions from a position on, whose errors are recorded: backward, or forward with fallback.
ghost use Rattle.std.specs.Prelude.{◌≡◌};
ghost use Rattle.list_values.specs.Directions.{forwards};
ghost use Rattle.list_values.specs.Sizes.{sized};
ghost use Rattle.list_end.specs.Passes.{size_pass};

use list_pushes::passes::pass;
use list_values::sizes::{Rules, Sizing, record_errors};
use list_values::value::Span;

#[tactic(auto, using(crate::proofs::PassLaws::size_pass_law))]
pub fn size_pass(
    rules: &Rules<'_>,
    actions: &mut [u64],
    temporaries: &mut [u64],
    span: Span,
    sizing: Sizing,
) -> Sizing
    ensures { sized result actions.new temporaries.new ≡ size_pass rules.entry.now.sources.section.stream.now rules.entry.now.sources.section.table.now (forwards rules.entry.now.direction) actions.old temporaries.old span.base span.count rules.entry.now.sources.pointer sizing }
{
    let errors = pass(rules, actions, temporaries, span);
    record_errors(sizing, errors)
}
