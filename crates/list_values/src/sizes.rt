// Known sizes, and setting one: in the operand, in its temporary, or as a recorded error. A size is a number, 65,535 for none, as
// the words of a list hold it: from these it comes, and to these it goes back. In the words s is the stream, t the section's
// table, a the actions and m the temporaries, which are parameters of their own: a struct that holds both lists as `&mut` would
// need in each contract two clauses more, that it still holds the same ones.
ghost use Rattle.std.specs.Prelude.{◌≡◌};
ghost use Rattle.codes.specs.Lists.{list_number};
ghost use Rattle.list_values.specs.Directions.{forwards};
ghost use Rattle.list_values.specs.Sizes.{Settles, Counted, entry, list_size, export_size_of, tmp_size, listed_size, size_of, size_at, sum_of_errors, recorded, size_temporary, settled, set_operand, set_two, set_three, falls_back, pair_fallback, set_size_of_pair, triple_falls_back, triple_fallback, share_size, all_equal, set_size_of_triple, set_unsized};

use crate::section::Section;
use crate::value::{INPUT_0, INPUT_1, OUTPUT, Value, put_size, value_at};
use codes::list::List;
use codes::{NONE, table, value_kind};

// The ordinal of the statement begun last, the errors recorded and the first one's ordinal, which is 65,535 while there is none, as
// the answer's words have it.
#[derive(Clone, Copy)]
pub struct Sizing {
    pub begun: u64,
    pub errors: u64,
    pub first: u64,
}

// What sizes come from: the section, and the pointer size, to which a value may fall back.
#[derive(Clone, Copy)]
pub struct Sources<'a> {
    pub section: Section<'a>,
    pub pointer: u64,
}

// Which way a pass over the actions goes. Forward it falls back to pointer size, backward it does not.
#[derive(Clone, Copy, Debug, PartialEq, Eq)]
pub enum Direction {
    Backward,
    Forward,
}

// What the size rules go by. It is lent by reference, as a walk's context is.
#[derive(Clone, Copy)]
pub struct Rules<'a> {
    pub sources: Sources<'a>,
    pub direction: Direction,
}

// A position so many bytes into a list. The list is a number, since the promise holds for any; `List` has the nine by name.
#[tactic(auto, unfolding(crate::specs::Sizes::entry))]
pub fn entry(table: &[u16; table::LENGTH], list: usize, bytes: u64) -> usize
    ensures { result ≡ entry table.now list bytes }
{
    usize::from(access::get(table, table::LISTS + list % 16)) + (bytes % 1048576) as usize
}

// The size of an entry of a list, whose entries are a name and a size.
#[tactic(auto, unfolding(crate::specs::Sizes::list_size))]
fn list_size(section: Section<'_>, list: List, index: u64) -> u64
    ensures { result ≡ list_size section.entry.stream.now section.entry.table.now (list_number list) index }
{
    access::u16_at(
        section.stream,
        entry(section.table, usize::from(list), index % 65536 * 4 + 2),
    )
}

// The size of a subtable's table export.
#[tactic(auto, unfolding(crate::specs::Sizes::export_size_of))]
fn export_size(section: Section<'_>, index: u64) -> u64
    ensures { result ≡ export_size_of section.entry.stream.now section.entry.table.now index }
{
    list_size(
        section,
        List::Tables,
        list_size(section, List::Subtables, index),
    )
}

#[tactic(auto, unfolding(crate::specs::Sizes::tmp_size))]
fn tmp_size(temporaries: &[u64], index: u64) -> u64
    ensures { result ≡ tmp_size temporaries.now index }
{
    access::get(temporaries, index as usize) / 65536 % 65536
}

// The size of a register, table export or field. It is not compiled into what asks for a size, most of which has one of its own:
// these hints on inlining, and those of `list_pushes`, `expr_scope`, `expr_reading` and `stmt_branches`, are what was measured to be
// fastest.
#[tactic(auto, unfolding(crate::specs::Sizes::listed_size))]
#[inline(never)]
fn listed_size(section: Section<'_>, kind: u64, number: u64) -> u64
    ensures { result ≡ listed_size section.entry.stream.now section.entry.table.now kind number }
{
    match kind {
        value_kind::REGISTER => list_size(section, List::Registers, number),
        value_kind::FIELD => list_size(section, List::Fields, number),
        value_kind::SUBTABLE | value_kind::SUBTABLE_REF => export_size(section, number),
        _ => NONE,
    }
}

// The known size, 65,535 for none.
#[tactic(auto, unfolding(crate::specs::Sizes::size_of, crate::specs::Sizes::size_of_local))]
#[inline(always)]
pub fn size_of(section: Section<'_>, temporaries: &[u64], value: Value) -> u64
    ensures { result ≡ size_of section.entry.stream.now section.entry.table.now temporaries.now value }
{
    if value.size != NONE {
        return value.size;
    }
    if value.kind == value_kind::PCODE_TMP {
        return tmp_size(temporaries, value.number);
    }
    listed_size(section, value.kind, value.number)
}

// The known size of the operand there.
#[tactic(auto, unfolding(crate::specs::Sizes::size_at, crate::specs::Sizes::size_of, crate::specs::Sizes::size_of_local, crate::specs::Values::value_at, crate::specs::Values::value_of))]
#[inline(always)]
fn size_at(section: Section<'_>, actions: &[u64], temporaries: &[u64], at: usize, index: u8) -> u64
    ensures { result ≡ size_at section.entry.stream.now section.entry.table.now actions.now temporaries.now at index }
{
    size_of(section, temporaries, value_at(actions, at, index))
}

// The sum, up to the greatest number of a word.
#[tactic(auto, unfolding(crate::specs::Sizes::sum_of_errors))]
pub fn sum_of_errors(errors: u64, more: u64) -> u64
    ensures { result ≡ sum_of_errors errors more }
{
    errors.saturating_add(more)
}

// So many errors more.
#[tactic(auto, unfolding(crate::specs::Sizes::recorded))]
pub fn record_errors(sizing: Sizing, count: u64) -> Sizing
    ensures { result ≡ recorded count sizing }
{
    if count == 0 {
        return sizing;
    }
    let errors = sum_of_errors(sizing.errors, count);
    let first = if sizing.errors == 0 {
        sizing.begun
    } else {
        sizing.first
    };
    Sizing {
        errors,
        first,
        ..sizing
    }
}

#[tactic(auto, unfolding(crate::specs::Sizes::size_temporary))]
#[inline(always)]
fn size_temporary(temporaries: &mut [u64], value: Value, size: u64)
    ensures { temporaries.new ≡ size_temporary temporaries.old value size }
{
    if value.kind != value_kind::PCODE_TMP {
        return;
    }
    let i = value.number as usize;
    let w = access::get(temporaries, i);
    access::put(
        temporaries,
        i,
        w % 65536 + size % 65536 * 65536 + w / 4294967296 * 4294967296,
    );
}

// A size set on a value whose known size was that one: 1 where that is an error, else 0, a number since callers add them.
#[tactic(auto, unfolding(crate::specs::Sizes::settled, crate::specs::Sizes::error, crate::specs::Sizes::recorded))]
#[inline(always)]
pub fn settle(temporaries: &mut [u64], value: Value, known: u64, size: u64) -> u64
    ensures { Settles result temporaries.new (settled temporaries.old value known size) }
{
    if known == NONE {
        size_temporary(temporaries, value, size);
        return 0;
    }
    if known == size || value.kind == value_kind::SUBTABLE {
        return 0;
    }
    1
}

// Sets the size of the operand at an index after a position.
#[tactic(auto, unfolding(crate::specs::Sizes::set_operand, crate::specs::Sizes::size_at, crate::specs::Base::then_l))]
#[inline(always)]
pub fn set_operand(
    section: Section<'_>,
    actions: &mut [u64],
    temporaries: &mut [u64],
    at: usize,
    index: u8,
    size: u64,
) -> u64
    ensures { Counted result actions.new temporaries.new (set_operand section.entry.stream.now section.entry.table.now actions.old temporaries.old at index size) }
{
    let v = value_at(actions, at, index);
    let known = size_of(section, temporaries, v);
    put_size(actions, at, index, size);
    settle(temporaries, v, known, size)
}

// The same of two operands, one after the other.
#[tactic(auto, using(crate::proofs::SizeLaws::record_sum), unfolding(crate::specs::Sizes::set_two, crate::specs::Sizes::then_s))]
#[inline(never)]
pub fn set_two(
    section: Section<'_>,
    actions: &mut [u64],
    temporaries: &mut [u64],
    at: usize,
    index: u8,
    other: u8,
    size: u64,
) -> u64
    ensures { Counted result actions.new temporaries.new (set_two section.entry.stream.now section.entry.table.now actions.old temporaries.old at index other size) }
{
    let first = set_operand(section, actions, temporaries, at, index, size);
    let second = set_operand(section, actions, temporaries, at, other, size);
    sum_of_errors(first, second)
}

#[tactic(auto, using(crate::proofs::SizeLaws::record_sum), unfolding(crate::specs::Sizes::set_three, crate::specs::Sizes::then_s))]
#[inline(never)]
pub fn set_three(
    section: Section<'_>,
    actions: &mut [u64],
    temporaries: &mut [u64],
    at: usize,
    size: u64,
) -> u64
    ensures { Counted result actions.new temporaries.new (set_three section.entry.stream.now section.entry.table.now actions.old temporaries.old at size) }
{
    let x = set_two(section, actions, temporaries, at, INPUT_0, INPUT_1, size);
    let y = set_operand(section, actions, temporaries, at, OUTPUT, size);
    sum_of_errors(x, y)
}

// Whether a value falls back to pointer size: InstStart, InstNext, a field or a constant.
#[tactic(auto, unfolding(crate::specs::Sizes::falls_back))]
pub fn falls_back(value: Value) -> bool
    ensures { result ≡ falls_back value }
{
    matches!(
        value.kind,
        value_kind::INST_START | value_kind::INST_NEXT | value_kind::FIELD | value_kind::CONSTANT
    )
}

#[tactic(auto, unfolding(crate::specs::Sizes::pair_fallback, crate::specs::Sizes::recorded))]
fn pair_fallback(
    rules: &Rules<'_>,
    actions: &mut [u64],
    temporaries: &mut [u64],
    at: usize,
    index: u8,
    other: u8,
) -> u64
    ensures { Counted result actions.new temporaries.new (pair_fallback rules.entry.now.sources.section.stream.now rules.entry.now.sources.section.table.now (forwards rules.entry.now.direction) actions.old temporaries.old at index other rules.entry.now.sources.pointer) }
{
    let Sources { section, pointer } = rules.sources;
    if rules.direction == Direction::Forward
        && (falls_back(value_at(actions, at, index)) || falls_back(value_at(actions, at, other)))
    {
        return set_two(section, actions, temporaries, at, index, other, pointer);
    }
    0
}

// Two operands have one size.
#[tactic(auto, unfolding(crate::specs::Sizes::set_size_of_pair, crate::specs::Sizes::share_pair, crate::specs::Sizes::recorded))]
pub fn set_size_of_pair(
    rules: &Rules<'_>,
    actions: &mut [u64],
    temporaries: &mut [u64],
    at: usize,
    index: u8,
    other: u8,
) -> u64
    ensures { Counted result actions.new temporaries.new (set_size_of_pair rules.entry.now.sources.section.stream.now rules.entry.now.sources.section.table.now (forwards rules.entry.now.direction) actions.old temporaries.old at index other rules.entry.now.sources.pointer) }
{
    let section = rules.sources.section;
    let x = size_at(section, actions, temporaries, at, index);
    let y = size_at(section, actions, temporaries, at, other);
    if x == NONE {
        if y == NONE {
            return pair_fallback(rules, actions, temporaries, at, index, other);
        }
        return set_operand(section, actions, temporaries, at, index, y);
    }
    if x == y {
        return 0;
    }
    set_operand(section, actions, temporaries, at, other, x)
}

#[tactic(auto, unfolding(crate::specs::Sizes::triple_falls_back))]
fn triple_falls_back(actions: &[u64], at: usize) -> bool
    ensures { result ≡ triple_falls_back actions.now at }
{
    falls_back(value_at(actions, at, INPUT_0))
        || falls_back(value_at(actions, at, INPUT_1))
        || falls_back(value_at(actions, at, OUTPUT))
}

#[tactic(auto, unfolding(crate::specs::Sizes::triple_fallback, crate::specs::Sizes::recorded))]
fn triple_fallback(
    rules: &Rules<'_>,
    actions: &mut [u64],
    temporaries: &mut [u64],
    at: usize,
) -> u64
    ensures { Counted result actions.new temporaries.new (triple_fallback rules.entry.now.sources.section.stream.now rules.entry.now.sources.section.table.now (forwards rules.entry.now.direction) actions.old temporaries.old at rules.entry.now.sources.pointer) }
{
    if rules.direction == Direction::Forward && triple_falls_back(actions, at) {
        let Sources { section, pointer } = rules.sources;
        return set_three(section, actions, temporaries, at, pointer);
    }
    0
}

// The other two take the size of the first known one.
#[tactic(auto, unfolding(crate::specs::Sizes::share_size, crate::specs::Sizes::recorded))]
fn share_size(
    section: Section<'_>,
    actions: &mut [u64],
    temporaries: &mut [u64],
    at: usize,
    first: u64,
    second: u64,
    third: u64,
) -> u64
    ensures { Counted result actions.new temporaries.new (share_size section.entry.stream.now section.entry.table.now actions.old temporaries.old at first second third) }
{
    if first != NONE {
        return set_two(section, actions, temporaries, at, INPUT_1, OUTPUT, first);
    }
    if second != NONE {
        return set_two(section, actions, temporaries, at, INPUT_0, OUTPUT, second);
    }
    set_two(section, actions, temporaries, at, INPUT_0, INPUT_1, third)
}

#[tactic(auto, unfolding(crate::specs::Sizes::all_equal))]
fn all_equal(first: u64, second: u64, third: u64) -> bool
    ensures { result ≡ all_equal first second third }
{
    first == second && second == third
}

// Both inputs and the output have one size.
#[tactic(auto, unfolding(crate::specs::Sizes::set_size_of_triple, crate::specs::Sizes::share_triple, crate::specs::Sizes::recorded))]
pub fn set_size_of_triple(
    rules: &Rules<'_>,
    actions: &mut [u64],
    temporaries: &mut [u64],
    at: usize,
) -> u64
    ensures { Counted result actions.new temporaries.new (set_size_of_triple rules.entry.now.sources.section.stream.now rules.entry.now.sources.section.table.now (forwards rules.entry.now.direction) actions.old temporaries.old at rules.entry.now.sources.pointer) }
{
    let section = rules.sources.section;
    let x = size_at(section, actions, temporaries, at, INPUT_0);
    let y = size_at(section, actions, temporaries, at, INPUT_1);
    let w = size_at(section, actions, temporaries, at, OUTPUT);
    if all_equal(x, y, w) {
        if x == NONE {
            return triple_fallback(rules, actions, temporaries, at);
        }
        return 0;
    }
    share_size(section, actions, temporaries, at, x, y, w)
}

// An operand with no known size takes pointer size.
#[tactic(auto, unfolding(crate::specs::Sizes::set_unsized, crate::specs::Sizes::recorded))]
#[inline(never)]
pub fn set_unsized(
    sources: &Sources<'_>,
    actions: &mut [u64],
    temporaries: &mut [u64],
    at: usize,
    index: u8,
) -> u64
    ensures { Counted result actions.new temporaries.new (set_unsized sources.entry.now.section.stream.now sources.entry.now.section.table.now actions.old temporaries.old at index sources.entry.now.pointer) }
{
    let Sources { section, pointer } = *sources;
    if size_at(section, actions, temporaries, at, index) == NONE {
        return set_operand(section, actions, temporaries, at, index, pointer);
    }
    0
}
