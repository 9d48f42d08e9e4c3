// What the border of a mesh alone says about points inside rows: see specs/.
#![tactic(auto)]
