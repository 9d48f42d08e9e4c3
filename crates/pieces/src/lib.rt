// Lines that arrive in pieces (request W4): definitions and theorems alone, in specs/. The code is the crate `reader`.
#![tactic(auto)]
