// Demands 2 and 3 as theorems over the rules; no code.
#![tactic(auto)]
