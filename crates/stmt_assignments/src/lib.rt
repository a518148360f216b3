// Stores to memory, and copies into names, bit ranges and new temporaries.
#![tactic(auto)]

pub mod copies;
pub mod stores;
