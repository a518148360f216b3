// The definition of document 01's rules: specs alone, no code.
#![tactic(auto)]
