// The join of two orders, written as an order sheet into lent room. Document 01, "How a derivation runs"; document 02, Req 02.
#![tactic(auto)]

pub mod call;
pub mod joining;
pub mod rows;
