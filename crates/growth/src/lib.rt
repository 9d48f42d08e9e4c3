// What a sequence of calls leaves goes back to the base: see specs/.
#![tactic(auto)]
