// The planning model. It has no code yet.
#![tactic(auto)]
