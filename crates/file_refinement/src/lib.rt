// Theorems alone: what `file_blocks`, `file_syntax` and `file_section` compute is the definition's section and refusal.
#![tactic(auto)]
