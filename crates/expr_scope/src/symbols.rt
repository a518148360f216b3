// The global of a name.
ghost use Rattle.std.specs.Prelude.{◌≡◌, ◌<◌};
ghost use Rattle.expr_scope.specs.Outcomes.{to_symbol};
ghost use Rattle.expr_scope.specs.Symbols.{place_of, lookup};

use codes::limit::NAMES;
use codes::{symbol_kind, table};

// What a global is, and its place in the list of its kind.
#[derive(Clone, Copy)]
pub enum Symbol {
    Space(u64),
    Register(u64),
    BitRange(u64),
    Table(u64),
    UserOp(u64),
    Macro(u64),
    Other(u64),
}

// The global of a name. The table has 0 where there is none, else 1 + kind + 8 × its place. The kind is a number here alone, as
// the table's word has it: it becomes a `Symbol` at once.
#[tactic(auto, unfolding(crate::specs::Symbols::lookup, crate::specs::Symbols::symbol_of, crate::specs::Symbols::of_kind, crate::specs::Symbols::place_of))]
pub fn lookup(table: &[u16; table::LENGTH], name: u64) -> Option<Symbol>
    ensures { (to_symbol result ≡ lookup table.now name) × (place_of (to_symbol result) < 8192) }
{
    let g = u64::from(access::get(table, table::GLOBALS + (name % NAMES) as usize));
    if g == 0 {
        return None;
    }
    let place = (g - 1) / 8;
    let kind = (g - 1) % 8;
    Some(match kind {
        symbol_kind::SPACE => Symbol::Space(place),
        symbol_kind::REGISTER => Symbol::Register(place),
        symbol_kind::BIT_RANGE => Symbol::BitRange(place),
        symbol_kind::TABLE => Symbol::Table(place),
        symbol_kind::USER_OP => Symbol::UserOp(place),
        symbol_kind::MACRO => Symbol::Macro(place),
        _ => Symbol::Other(place),
    })
}
