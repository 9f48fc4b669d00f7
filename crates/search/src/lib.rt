// The bounded search: from place to move, and from each move back to the first place with one step fewer. Document 01, "How a
// derivation runs" and "Questions" 41 to 43.
#![tactic(auto)]

pub mod call;
pub mod explore;
pub mod found;
pub mod lent;
pub mod shortest;
pub mod trial;
