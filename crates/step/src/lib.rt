// One step on checked sheets: moves and their questions. Document 01, "How a derivation runs" and "Questions".
#![tactic(auto)]

pub mod failure;
pub mod moves;
pub mod problem;
pub mod questions;
pub mod record;
pub mod taking;
