// Laws of one split and of the stages; no code.
#![tactic(auto)]
