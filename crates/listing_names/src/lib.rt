// The names that a section file and the action list have as numbers, spelled as a listing has them.
#![tactic(auto)]

pub mod names;
pub mod operations;
