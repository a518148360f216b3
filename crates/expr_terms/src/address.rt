// Addresses: the place that a pointer in a space refers to.
ghost use Rattle.std.specs.Prelude.{◌≡◌, Ok};
ghost use Rattle.expr_terms.specs.Outcomes.{to_expr, to_space};
ghost use Rattle.expr_terms.specs.Answers.{resolved};
ghost use Rattle.expr_terms.specs.Addresses.{or_size, in_const_space, kind_of_space, named_space, resolve_space, reference_to, address_in, resolve_address};

use crate::answers::{Resolved, given};
use codes::header;
use codes::list::List;
use codes::refusal::Refusal;
use expr_reading::read::read_operand;
use expr_scope::scope::{Access, ExprValue};
use expr_scope::symbols::{Symbol, lookup};
use list_pushes::push::Context;
use list_values::section::Section;
use list_values::sizes::entry;
use list_values::value::{Value, with_size};

// Two of the three kinds of a space. They stay the bytes that the file has: they are looked at in one place, where an enum would be
// made of the byte only to be matched at once.
const RAM: u64 = 0;

const REGISTERS: u64 = 1;

#[tactic(auto, unfolding(crate::specs::Addresses::or_size, crate::specs::Answers::given))]
fn or_size(size: u64, other: u64) -> u64
    ensures { result ≡ or_size size other }
{
    given(size).unwrap_or(other)
}

#[tactic(auto, unfolding(crate::specs::Addresses::in_const_space))]
fn in_const_space(part: Resolved<ExprValue>, size: u64) -> Result<Resolved<ExprValue>, Refusal>
    ensures { to_expr result ≡ in_const_space part.value size part.next part.state }
{
    let value = match part.value {
        ExprValue::Local(v) => ExprValue::Local(with_size(v, or_size(size, v.size))),
        ExprValue::Const { value, size: own } => ExprValue::Const {
            value,
            size: or_size(size, own),
        },
        ExprValue::Unbound(_)
        | ExprValue::Apply(_)
        | ExprValue::RamRef(_)
        | ExprValue::RegisterRef(_)
        | ExprValue::AddressOf { .. }
        | ExprValue::BitRange(_) => return Err(Refusal::ConstSpace),
    };
    Ok(Resolved { value, ..part })
}

#[tactic(auto, unfolding(crate::specs::Addresses::kind_of_space))]
fn kind_of_space(section: Section<'_>, index: u64) -> u64
    ensures { to_space (Ok result) ≡ kind_of_space section.entry.stream.now section.entry.table.now index }
{
    let at = entry(section.table, usize::from(List::Spaces), index % 65536 * 5);
    access::byte(section.stream, at, 2)
}

#[tactic(auto, unfolding(crate::specs::Addresses::named_space, crate::specs::Addresses::space_of))]
fn named_space(section: Section<'_>, name: u64) -> Result<u64, Refusal>
    ensures { to_space result ≡ named_space section.entry.stream.now section.entry.table.now name }
{
    match lookup(section.table, name).ok_or(Refusal::Undefined)? {
        Symbol::Space(i) => Ok(kind_of_space(section, i)),
        Symbol::Register(_)
        | Symbol::BitRange(_)
        | Symbol::Table(_)
        | Symbol::UserOp(_)
        | Symbol::Macro(_)
        | Symbol::Other(_) => Err(Refusal::WrongKind),
    }
}

// The kind of the named space, else of the default one.
#[tactic(auto, unfolding(crate::specs::Addresses::resolve_space, crate::specs::Addresses::default_space, crate::specs::Answers::given))]
fn resolve_space(section: Section<'_>, name: u64) -> Result<u64, Refusal>
    ensures { to_space result ≡ resolve_space section.entry.stream.now section.entry.table.now name }
{
    if let Some(name) = given(name) {
        return named_space(section, name);
    }
    let default = given(access::u16_at(section.stream, header::DEFAULT_SPACE));
    Ok(kind_of_space(section, default.ok_or(Refusal::NoDefaultSpace)?))
}

#[tactic(auto, unfolding(crate::specs::Addresses::reference_to))]
fn reference_to(
    kind: u64,
    size: u64,
    pointer: Resolved<Value>,
) -> Result<Resolved<ExprValue>, Refusal>
    ensures { to_expr result ≡ reference_to kind size pointer.next pointer.value pointer.state }
{
    let Resolved {
        value: pointer,
        next,
        state,
    } = pointer;
    let size = or_size(size, 0);
    let value = match kind {
        RAM => ExprValue::RamRef(Access { pointer, size }),
        REGISTERS => ExprValue::RegisterRef(Access { pointer, size }),
        _ => return Err(Refusal::OtherSpace),
    };
    Ok(Resolved { next, value, state })
}

#[tactic(auto, unfolding(crate::specs::Addresses::address_in, crate::specs::Addresses::in_space, crate::specs::Addresses::reference, crate::specs::Answers::expr_of))]
fn address_in(
    context: &Context<'_>,
    actions: &mut [u64],
    temporaries: &mut [u64],
    space: u64,
    size: u64,
    part: Resolved<ExprValue>,
) -> Result<Resolved<ExprValue>, Refusal>
    ensures { resolved (to_expr result) actions.new temporaries.new ≡ address_in context.entry.now.section.stream.now context.entry.now.section.table.now actions.old temporaries.old context.entry.now.env space size part.value part.next part.state }
{
    let kind = resolve_space(context.section, space)?;
    let (value, state) = read_operand(context, actions, temporaries, part.value, part.state)?;
    let next = part.next;
    reference_to(kind, size, Resolved { value, next, state })
}

// In the const space a local or a constant is itself.
#[tactic(auto, unfolding(crate::specs::Addresses::resolve_address))]
pub fn resolve_address(
    context: &Context<'_>,
    actions: &mut [u64],
    temporaries: &mut [u64],
    space: u64,
    size: u64,
    part: Resolved<ExprValue>,
) -> Result<Resolved<ExprValue>, Refusal>
    ensures { resolved (to_expr result) actions.new temporaries.new ≡ resolve_address context.entry.now.section.stream.now context.entry.now.section.table.now actions.old temporaries.old context.entry.now.env space size part.value part.next part.state }
{
    if space == access::u16_at(context.section.stream, header::CONST) {
        return in_const_space(part, size);
    }
    address_in(context, actions, temporaries, space, size, part)
}
