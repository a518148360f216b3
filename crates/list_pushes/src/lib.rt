// The size rules of the operations, a pass of them over actions, and pushing: actions, and the temporaries that they need.
#![tactic(auto)]

pub mod passes;
pub mod push;
pub mod rules;
