// Laws of what building's result tables hold, and of the rooms that they need; no code.
#![tactic(auto)]
