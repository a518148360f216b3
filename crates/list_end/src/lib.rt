// The passes over the action list, and the end.
#![tactic(auto)]

pub mod end;
pub mod passes;
