// What a walk over statements has and how it goes on.
#![tactic(auto)]

pub mod walk;
