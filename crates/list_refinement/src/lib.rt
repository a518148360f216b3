// The words are the definition's: theorems in proofs/. There is no code.
#![tactic(auto)]
