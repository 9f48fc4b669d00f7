// The checks of the three sheets. Document 01, "The three sheets" and "Questions". The definitions are those of `hgn`.
#![tactic(auto)]

pub mod check;
pub mod part_counts;
pub mod rows;
pub mod sizes;
