// What a question about a point gains on meshes that 11 and 12 do not refuse: see specs/.
#![tactic(auto)]
