// The end of a walk and its answer: `finish` runs the end and judges it, `answer` has the twelve numbers and what the lent
// lists hold with them.
#![tactic(auto)]

pub mod answer;
pub mod finish;
