// What is found of one permission, for every kind of rule, and its laws; no code.
#![tactic(auto)]
