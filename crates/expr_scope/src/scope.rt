// What a name means: a macro parameter, inst_next, inst_start, a local, a global register or bit range. And the slots that
// hold a scope's parameters. The context and the scope are two parameters: a struct of both would be made anew at each call of a
// statement, which lends the scope as `&mut` between.
ghost use Rattle.std.specs.Prelude.{◌≡◌, Some};
ghost use Rattle.list_pushes.specs.Outcomes.{to_read};
ghost use Rattle.list_pushes.specs.Pushes.{read};
ghost use Rattle.expr_scope.specs.Outcomes.{to_meaning, to_found, to_plain, to_symbol, one_more};
ghost use Rattle.expr_scope.specs.Slots.{one_value, slot_of, of_slot, put_slot, slot_at, param_place};
ghost use Rattle.expr_scope.specs.Scopes.{find_param, own_local, tmp_local, lookup_local, bit_range, global_meaning, local_meaning, inner_meaning, resolve_ident, plain_local, named_tmp};

use crate::smalls::{put_small, small};
use crate::symbols::{Symbol, lookup};
use codes::limit::NAMES;
use codes::list::List;
use codes::refusal::Refusal;
use codes::{header, table, value_kind};
use list_pushes::push::{Context, Operation, State, add_tmp};
use list_values::section::Section;
use list_values::sizes::entry;
use list_values::value::{Value, absent, get, local, put, put_value, value_at};

// The words of a slot: a parameter's name, the tag, two numbers, and two values of two words each.
pub const SLOT_NAME: usize = 0;

const SLOT_TAG: usize = 1;

const SLOT_X: usize = 2;

const SLOT_Y: usize = 3;

pub const SLOT_A: u8 = 4;

const SLOT_B: u8 = 6;

// The tags, in the order of `ExprValue`; the last is that of a bit range. Numbers, since a scope is one array of words that
// lies on the stack: there is no heap for values of their own.
const LOCAL: u64 = 0;

const UNBOUND: u64 = 1;

const CONST: u64 = 2;

const APPLY: u64 = 3;

const RAM_REF: u64 = 4;

const REGISTER_REF: u64 = 5;

const ADDRESS_OF: u64 = 6;

const BIT_RANGE: u64 = 7;

// A range of bits: so many from a bit on.
#[derive(Clone, Copy)]
pub struct Bits {
    pub from: u64,
    pub count: u64,
}

// A range of the bits of a value.
#[derive(Clone, Copy)]
pub struct BitRange {
    pub base: Value,
    pub bits: Bits,
}

// So many bytes that a pointer refers to; 0 where no size is stated, since the words of slots and actions, which are lent, have it
// so.
#[derive(Clone, Copy)]
pub struct Access {
    pub pointer: Value,
    pub size: u64,
}

// What an expression means before it is read. The sizes of a constant and of an address are 65,535 where none is stated, since they
// become a value's size as they are, or come from a slot's word.
#[derive(Clone, Copy)]
pub enum ExprValue {
    Local(Value),
    Unbound(Value),
    Const { value: u64, size: u64 },
    Apply(Operation),
    RamRef(Access),
    RegisterRef(Access),
    AddressOf { base: Value, size: u64 },
    BitRange(BitRange),
}

// An expression's value as a slot of eight words keeps it behind the name: which constructor, two numbers, two values.
#[derive(Clone, Copy)]
pub struct Slot {
    pub tag: u64,
    pub x: u64,
    pub y: u64,
    pub a: Value,
    pub b: Value,
}

fn one_value(tag: u64, first: u64, second: u64, value: Value) -> Slot
    ensures { result ≡ one_value tag first second value }
{
    Slot {
        tag,
        x: first,
        y: second,
        a: value,
        b: absent(),
    }
}

impl From<ExprValue> for Slot {
    ghost from_gives = { λ expr slot. slot ≡ slot_of expr };

    #[tactic(auto, unfolding(crate::specs::Slots::slot_of))]
    fn from(expr: ExprValue) -> Slot {
        match expr {
            ExprValue::Local(v) => one_value(LOCAL, 0, 0, v),
            ExprValue::Unbound(v) => one_value(UNBOUND, 0, 0, v),
            ExprValue::Const { value, size } => one_value(CONST, value, size, absent()),
            ExprValue::Apply(operation) => Slot {
                tag: APPLY,
                x: operation.code % 256 + operation.count % 256 * 256,
                y: operation.number,
                a: operation.first,
                b: operation.second,
            },
            ExprValue::RamRef(to) => one_value(RAM_REF, to.size, 0, to.pointer),
            ExprValue::RegisterRef(to) => one_value(REGISTER_REF, to.size, 0, to.pointer),
            ExprValue::AddressOf { base, size } => one_value(ADDRESS_OF, size, 0, base),
            ExprValue::BitRange(range) => {
                one_value(BIT_RANGE, range.bits.from, range.bits.count, range.base)
            }
        }
    }
}

impl From<Slot> for ExprValue {
    ghost from_gives = { λ slot expr. expr ≡ of_slot slot };

    #[tactic(auto, unfolding(crate::specs::Slots::of_slot, crate::specs::Slots::of_parts))]
    fn from(slot: Slot) -> ExprValue {
        let Slot { tag, x, y, a, b } = slot;
        match tag {
            LOCAL => ExprValue::Local(a),
            UNBOUND => ExprValue::Unbound(a),
            CONST => ExprValue::Const { value: x, size: y },
            APPLY => ExprValue::Apply(Operation {
                code: x % 256,
                number: y,
                count: x / 256,
                first: a,
                second: b,
            }),
            RAM_REF => ExprValue::RamRef(Access {
                pointer: a,
                size: x,
            }),
            REGISTER_REF => ExprValue::RegisterRef(Access {
                pointer: a,
                size: x,
            }),
            ADDRESS_OF => ExprValue::AddressOf { base: a, size: x },
            _ => ExprValue::BitRange(BitRange {
                base: a,
                bits: Bits { from: x, count: y },
            }),
        }
    }
}

#[tactic(auto, unfolding(crate::specs::Slots::put_slot))]
pub fn put_slot(params: &mut [u64], at: usize, slot: Slot)
    ensures { params.new ≡ put_slot params.old at slot }
{
    put(params, at, SLOT_TAG, slot.tag);
    put(params, at, SLOT_X, slot.x);
    put(params, at, SLOT_Y, slot.y);
    put_value(params, at, SLOT_A, slot.a);
    put_value(params, at, SLOT_B, slot.b);
}

#[tactic(auto, unfolding(crate::specs::Slots::slot_at))]
pub fn slot_at(params: &[u64], at: usize) -> Slot
    ensures { result ≡ slot_at params.now at }
{
    Slot {
        tag: get(params, at, SLOT_TAG),
        x: get(params, at, SLOT_X),
        y: get(params, at, SLOT_Y),
        a: value_at(params, at, SLOT_A),
        b: value_at(params, at, SLOT_B),
    }
}

// Where the slot of a parameter stands: eight words each.
#[tactic(auto, unfolding(crate::specs::Slots::param_place))]
pub fn param_place(index: usize) -> usize
    ensures { result ≡ param_place index }
{
    index % 8 * 8
}

// The last parameter of that name.
fn find_param(scope: &[u64], count: usize, name: u64) -> Option<usize>
    ensures { one_more result ≡ find_param count scope.now name }
{
    (0..count)
        .rev()
        .find(|&i| get(scope, param_place(i), SLOT_NAME) == name)
}

// A field or a subtable, as the word of the table has it: twice its number, odd for a field, and 0 for neither.
#[tactic(auto, unfolding(crate::specs::Scopes::own_local, crate::specs::Scopes::own_of))]
fn own_local(table: &[u16; table::LENGTH], name: u64) -> Option<Value>
    ensures { to_found result ≡ own_local table.now name }
{
    let own = u64::from(access::get(table, table::LOCALS + (name % NAMES) as usize));
    if own == 0 {
        return None;
    }
    if own % 2 == 1 {
        return Some(local(value_kind::FIELD, own / 2));
    }
    Some(local(value_kind::SUBTABLE, own / 2 - 1))
}

#[tactic(auto, unfolding(crate::specs::Scopes::tmp_local, crate::specs::Scopes::tmp_of))]
fn tmp_local(scope: &[u64], name: u64) -> Option<Value>
    ensures { to_found result ≡ tmp_local scope.now name }
{
    let more = small(scope, (name % NAMES) as usize);
    if more == 0 {
        return None;
    }
    Some(local(value_kind::PCODE_TMP, more - 1))
}

// Fields and subtables are the section's own.
#[tactic(auto, unfolding(crate::specs::Scopes::lookup_local, crate::specs::Scopes::or_tmp))]
fn lookup_local(table: &[u16; table::LENGTH], scope: &[u64], own: bool, name: u64) -> Option<Value>
    ensures { to_found result ≡ lookup_local table.now scope.now own name }
{
    if own {
        if let Some(value) = own_local(table, name) {
            return Some(value);
        }
    }
    tmp_local(scope, name)
}

#[tactic(auto, unfolding(crate::specs::Scopes::bit_range, crate::specs::Scopes::bits_at))]
fn bit_range(section: Section<'_>, index: u64) -> ExprValue
    ensures { result ≡ bit_range section.entry.stream.now section.entry.table.now index }
{
    let at = entry(
        section.table,
        usize::from(List::BitRanges),
        index % 65536 * 8,
    );
    ExprValue::BitRange(BitRange {
        base: local(value_kind::REGISTER, access::u16_in(section.stream, at, 2)),
        bits: Bits {
            from: access::u16_in(section.stream, at, 4),
            count: access::u16_in(section.stream, at, 6),
        },
    })
}

#[tactic(auto, unfolding(crate::specs::Scopes::global_meaning))]
fn global_meaning(section: Section<'_>, symbol: Symbol) -> Result<ExprValue, Refusal>
    ensures { to_meaning result ≡ global_meaning section.entry.stream.now section.entry.table.now (to_symbol (Some symbol)) }
{
    match symbol {
        Symbol::Register(i) => Ok(ExprValue::Local(local(value_kind::REGISTER, i))),
        Symbol::BitRange(i) => Ok(bit_range(section, i)),
        Symbol::Space(_)
        | Symbol::Table(_)
        | Symbol::UserOp(_)
        | Symbol::Macro(_)
        | Symbol::Other(_) => Err(Refusal::WrongKind),
    }
}

// inst_next, else inst_start, else a local. Compiled into its callers, which ask it for each name.
#[inline(always)]
#[tactic(auto, unfolding(crate::specs::Scopes::local_meaning))]
fn local_meaning(context: &Context<'_>, scope: &[u64], name: u64) -> Option<Value>
    ensures { to_found result ≡ local_meaning context.entry.now.section.stream.now context.entry.now.section.table.now scope.now context.entry.now.env name }
{
    if name == access::u16_at(context.section.stream, header::INST_NEXT) {
        return Some(local(value_kind::INST_NEXT, 0));
    }
    if name == access::u16_at(context.section.stream, header::INST_START) {
        return Some(local(value_kind::INST_START, 0));
    }
    lookup_local(context.section.table, scope, context.env.own, name)
}

// A local, else a global.
#[tactic(auto, unfolding(crate::specs::Scopes::inner_meaning, crate::specs::Scopes::found_or, crate::specs::Scopes::global_meaning))]
fn inner_meaning(context: &Context<'_>, scope: &[u64], name: u64) -> Result<ExprValue, Refusal>
    ensures { to_meaning result ≡ inner_meaning context.entry.now.section.stream.now context.entry.now.section.table.now scope.now context.entry.now.env name }
{
    if let Some(value) = local_meaning(context, scope, name) {
        return Ok(ExprValue::Local(value));
    }
    let symbol = lookup(context.section.table, name).ok_or(Refusal::Undefined)?;
    global_meaning(context.section, symbol)
}

#[tactic(auto, unfolding(crate::specs::Scopes::resolve_ident, crate::specs::Scopes::param_or))]
pub fn resolve_ident(context: &Context<'_>, scope: &[u64], name: u64) -> Result<ExprValue, Refusal>
    ensures { to_meaning result ≡ resolve_ident context.entry.now.section.stream.now context.entry.now.section.table.now scope.now context.entry.now.env name }
{
    match find_param(scope, context.env.count, name) {
        Some(i) => Ok(ExprValue::from(slot_at(scope, param_place(i)))),
        None => inner_meaning(context, scope, name),
    }
}

// The local that a name means which is no parameter's: the usual case, in which the larger `ExprValue` need not be made. None
// where only `resolve_ident` tells what the name means: a parameter or a range of bits. Compiled into its three callers, to which
// its answer then need not go through memory.
#[tactic(auto, unfolding(crate::specs::Scopes::plain_local, crate::specs::Scopes::plain_of, crate::specs::Scopes::inner_meaning, crate::specs::Scopes::found_or, crate::specs::Scopes::global_meaning, crate::specs::Scopes::bit_range, crate::specs::Scopes::bits_at))]
#[inline(always)]
pub fn plain_local(
    context: &Context<'_>,
    scope: &[u64],
    name: u64,
) -> Result<Option<Value>, Refusal>
    ensures { to_plain result ≡ plain_local context.entry.now.section.stream.now context.entry.now.section.table.now scope.now context.entry.now.env name }
{
    if find_param(scope, context.env.count, name).is_some() {
        return Ok(None);
    }
    if let Some(value) = local_meaning(context, scope, name) {
        return Ok(Some(value));
    }
    match lookup(context.section.table, name).ok_or(Refusal::Undefined)? {
        Symbol::Register(i) => Ok(Some(local(value_kind::REGISTER, i))),
        Symbol::BitRange(_) => Ok(None),
        Symbol::Space(_)
        | Symbol::Table(_)
        | Symbol::UserOp(_)
        | Symbol::Macro(_)
        | Symbol::Other(_) => Err(Refusal::WrongKind),
    }
}

// A named temporary is made, then declared: the scope has one more than its number. Its size may be missing: it stays the word
// that the list of temporaries keeps.
#[tactic(auto, unfolding(crate::specs::Scopes::named_tmp, crate::specs::Scopes::undeclared, list_pushes::specs::Pushes::on_tmp))]
pub fn named_tmp(
    context: &Context<'_>,
    scope: &mut [u64],
    temporaries: &mut [u64],
    name: u64,
    size: u64,
    state: State,
) -> Result<(Value, State), Refusal>
    ensures { read (to_read result) scope.new temporaries.new ≡ named_tmp context.entry.now.section.table.now scope.old temporaries.old context.entry.now.env name size state }
{
    let (value, next) = add_tmp(temporaries, name, size, state)?;
    match lookup_local(context.section.table, scope, context.env.own, name) {
        Some(_) => Err(Refusal::Redeclared),
        None => {
            put_small(scope, (name % NAMES) as usize, next.temporaries as u64);
            Ok((value, next))
        }
    }
}
