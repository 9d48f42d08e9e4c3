// Theorems about the definitions of document 01, in specs/: no code.
#![tactic(auto)]
