// Slices of bits: a local's has no bound, and what cannot be sliced unread is read first.
ghost use Rattle.std.specs.Prelude.{◌≡◌, ◌<◌};
ghost use Rattle.expr_terms.specs.Outcomes.{to_expr};
ghost use Rattle.expr_terms.specs.Answers.{resolved};
ghost use Rattle.expr_terms.specs.Slices.{low_bits, slice_read, const_bytes, slice_const, slice_range, slice_bits};

use crate::answers::{Resolved, given};
use codes::refusal::Refusal;
use expr_reading::read::{needed_bytes, read_operand, read_slice};
use expr_scope::scope::{BitRange, Bits, ExprValue};
use list_pushes::push::Context;

// So many bits of a number, from a bit on.
#[tactic(auto, using(crate::proofs::SliceLaws::low_bits_law))]
fn low_bits(number: u64, bits: Bits) -> u64
    requires { bits.from < 64 }
    ensures { result ≡ low_bits number bits.from bits.count }
{
    number >> bits.from & access::mask(bits.count)
}

#[tactic(auto, unfolding(crate::specs::Slices::slice_read, crate::specs::Slices::unbound_then, crate::specs::Answers::expr_of, list_pushes::specs::Pushes::on_read))]
fn slice_read(
    context: &Context<'_>,
    actions: &mut [u64],
    temporaries: &mut [u64],
    part: Resolved<ExprValue>,
    bits: Bits,
) -> Result<Resolved<ExprValue>, Refusal>
    ensures { resolved (to_expr result) actions.new temporaries.new ≡ slice_read context.entry.now.section.stream.now context.entry.now.section.table.now actions.old temporaries.old context.entry.now.env part.value bits.from bits.count part.next part.state }
{
    let (whole, state) = read_operand(context, actions, temporaries, part.value, part.state)?;
    let range = BitRange { base: whole, bits };
    let (slice, state) = read_slice(context, actions, temporaries, range, None, state)?;
    Ok(Resolved {
        value: ExprValue::Unbound(slice),
        state,
        ..part
    })
}

// A constant with no size has eight bytes.
#[tactic(auto, unfolding(crate::specs::Slices::const_bytes, crate::specs::Answers::given))]
fn const_bytes(size: u64) -> u64
    ensures { result ≡ const_bytes size }
{
    given(size).map_or(8, |bytes| bytes % 65536)
}

#[tactic(auto, unfolding(crate::specs::Slices::slice_const, crate::specs::Slices::const_bytes))]
fn slice_const(
    number: u64,
    size: u64,
    bits: Bits,
    part: Resolved<ExprValue>,
) -> Result<Resolved<ExprValue>, Refusal>
    ensures { to_expr result ≡ slice_const number size bits.from bits.count part.next part.state }
{
    if 8 * const_bytes(size) < bits.from % 65536 + bits.count % 65536 {
        return Err(Refusal::SlicePastEnd);
    }
    if 64 <= bits.from {
        return Err(Refusal::ShiftTooFar);
    }
    let value = low_bits(number, bits);
    let size = needed_bytes(bits.count);
    Ok(Resolved {
        value: ExprValue::Const { value, size },
        ..part
    })
}

#[tactic(auto, unfolding(crate::specs::Slices::slice_range))]
fn slice_range(
    whole: BitRange,
    bits: Bits,
    part: Resolved<ExprValue>,
) -> Result<Resolved<ExprValue>, Refusal>
    ensures { to_expr result ≡ slice_range whole.base whole.bits.from whole.bits.count bits.from bits.count part.next part.state }
{
    if whole.bits.count < bits.from % 65536 + bits.count % 65536 {
        return Err(Refusal::SlicePastEnd);
    }
    let from = whole.bits.from % 65536 + bits.from % 65536;
    Ok(Resolved {
        value: ExprValue::BitRange(BitRange {
            bits: Bits { from, ..bits },
            ..whole
        }),
        ..part
    })
}

// Bits of a part that is resolved.
#[tactic(auto, unfolding(crate::specs::Slices::slice_bits))]
pub fn slice_bits(
    context: &Context<'_>,
    actions: &mut [u64],
    temporaries: &mut [u64],
    part: Resolved<ExprValue>,
    bits: Bits,
) -> Result<Resolved<ExprValue>, Refusal>
    ensures { resolved (to_expr result) actions.new temporaries.new ≡ slice_bits context.entry.now.section.stream.now context.entry.now.section.table.now actions.old temporaries.old context.entry.now.env part.value bits.from bits.count part.next part.state }
{
    match part.value {
        ExprValue::Local(base) => Ok(Resolved {
            value: ExprValue::BitRange(BitRange { base, bits }),
            ..part
        }),
        ExprValue::Const { value, size } => slice_const(value, size, bits, part),
        ExprValue::BitRange(whole) => slice_range(whole, bits, part),
        ExprValue::Unbound(_)
        | ExprValue::Apply(_)
        | ExprValue::RamRef(_)
        | ExprValue::RegisterRef(_)
        | ExprValue::AddressOf { .. } => { slice_read(context, actions, temporaries, part, bits) }
    }
}
