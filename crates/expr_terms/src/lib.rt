// The terms of an expression that are more than a name or an operator: slices, addresses and calls.
#![tactic(auto)]

pub mod address;
pub mod answers;
pub mod calls;
pub mod slices;
