// Theorems about where the rows of a record stand in the tables stand in proofs/. There is no code.
#![tactic(auto)]
