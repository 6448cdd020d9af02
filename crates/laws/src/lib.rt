// Theorems about the definitions; no code.
#![tactic(auto)]
