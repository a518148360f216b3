// The words of a resolved file are the definition's: theorems in proofs/. There is no code.
#![tactic(auto)]
