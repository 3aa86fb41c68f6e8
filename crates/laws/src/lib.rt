// Definitions and lemmas on lists, words and depth-first search; no code.
#![tactic(auto)]
