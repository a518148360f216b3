// The words of expressions are the definition's: theorems in proofs/. There is no code.
#![tactic(auto)]
