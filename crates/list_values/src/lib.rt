// Values and their sizes. Here and in the crates above a word becomes an index, and an index a word, by `as`: both have 64 bits,
// so that nothing is lost, and the library has no `From` between them.
#![tactic(auto)]

pub mod section;
pub mod sizes;
pub mod value;
