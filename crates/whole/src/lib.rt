// Laws of whole numbers, in specs/: no code.
#![tactic(auto)]
