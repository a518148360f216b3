// Labels, and the branches that go to them or elsewhere.
#![tactic(auto)]

pub mod branches;
pub mod labels;
