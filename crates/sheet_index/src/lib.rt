// Where the parts of a checked sheet stand. Document 01, "The three sheets".
#![tactic(auto)]

pub mod index;
pub mod operators;
pub mod rows;
