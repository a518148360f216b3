// The words of statements are the definition's: theorems in proofs/. There is no code.
#![tactic(auto)]
