// The built-in functions, by their spelling.
#![tactic(auto)]

pub mod function;
pub mod inbuilt;
