// Theorems about the definitions of the format that no proof of code cites stand in proofs/. There is no code.
#![tactic(auto)]
