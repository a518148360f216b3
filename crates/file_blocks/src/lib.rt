// The blocks of a file, which frame the stream.
#![tactic(auto)]

pub mod blocks;
