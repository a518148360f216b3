// What a name means, and the words of a scope: the slots of its parameters, the small numbers of its locals and labels.
#![tactic(auto)]

pub mod args;
pub mod scope;
pub mod smalls;
pub mod symbols;
