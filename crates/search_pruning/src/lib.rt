// The moves by number, and one test for each reason to leave a step of the search out.
#![tactic(auto)]

pub mod moves;
pub mod rules;
