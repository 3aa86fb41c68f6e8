// Laws of building a graph; no code.
#![tactic(auto)]
