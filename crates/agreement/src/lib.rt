// Theorems: asking what was read answers as the text does; no code.
#![tactic(auto)]
