// Statements and macro bodies, which resolve each other.
#![tactic(auto)]

pub mod statements;
