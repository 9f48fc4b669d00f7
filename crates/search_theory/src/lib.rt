// The steps that a search may leave out. It has no code.
#![tactic(auto)]
