// Arguments held as slots of eight words until they are read or bound.
ghost use Rattle.std.specs.Prelude.{◌≡◌};
ghost use Rattle.expr_scope.specs.Slots.{arg_at, put_arg};

use crate::scope::{ExprValue, Slot, param_place, put_slot, slot_at};

// The words of a call's arguments: eight slots, on the stack, since there is no heap.
pub const ARGS_WORDS: usize = 64;

#[tactic(auto, unfolding(crate::specs::Slots::put_arg))]
pub fn put_arg(args: &mut [u64], index: u64, expr: ExprValue)
    ensures { args.new ≡ put_arg args.old index expr }
{
    put_slot(args, param_place(index as usize), Slot::from(expr));
}

#[tactic(auto, unfolding(crate::specs::Slots::arg_at))]
pub fn arg_at(args: &[u64], index: u64) -> ExprValue
    ensures { result ≡ arg_at args.now index }
{
    ExprValue::from(slot_at(args, param_place(index as usize)))
}
