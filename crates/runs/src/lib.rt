// Theorems about trees, lines, examination and runs stand in proofs/. There is no code.
#![tactic(auto)]
