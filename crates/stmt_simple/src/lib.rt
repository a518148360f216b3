// The kinds of statements that are neither jumps nor stores nor copies: declarations, exports, builds, calls.
#![tactic(auto)]

pub mod calls;
pub mod simple;
