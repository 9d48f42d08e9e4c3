// Demands 2 and 3 of the calls, in one statement each: see specs/.
#![tactic(auto)]
