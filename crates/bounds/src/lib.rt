// Theorems about how many rows a file's reading has stand in proofs/. There is no code.
#![tactic(auto)]
