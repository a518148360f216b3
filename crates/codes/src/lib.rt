// The numbers that the section file, its table, the action list and the answer give to things, by name. `codes_refinement`
// shows that those which the definition has too are the definition's. But for the refusals and the lists they are numbers and no
// enums: they are words of a file or of a lent list, which C reads and writes, so that an enum would need a conversion at each
// end, and any other number may stand in a list that is checked.
#![tactic(auto)]

pub mod action;
pub mod action_kind;
pub mod export_kind;
pub mod expression;
pub mod header;
pub mod limit;
pub mod list;
pub mod operation;
pub mod refusal;
pub mod statement;
pub mod symbol_kind;
pub mod table;
pub mod value_kind;

// No name, no size, no ordinal, no default space.
pub const NONE: u64 = 65535;
