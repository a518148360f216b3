// The walk over an expression's prefix code.
#![tactic(auto)]

pub mod expr;
