// How a value is read: an expression's value becomes an operand.
#![tactic(auto)]

pub mod read;
