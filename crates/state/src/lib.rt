// Tests on a part's rows and a state: whether literals and formulas hold, and which effects help a formula. Document 01, "How a
// derivation runs".
#![tactic(auto)]

pub mod atoms;
pub mod literals;
pub mod part;
pub mod parts;
pub mod relevance;
