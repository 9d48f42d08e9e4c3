// Lists, searches and loops by number, as definitions and laws in specs/. There is no code here.
#![tactic(auto)]
