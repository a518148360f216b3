// The guarantee: theorems in proofs/ about the definition. There is no code.
#![tactic(auto)]
