// The waiting list: its goals in the order of their places, each with a count of how often it is listed after goals that still wait. A goal
// is free where its count is 0. Goals leave and a method's nodes enter where the list stands. Document 01, "How a derivation runs".
#![tactic(auto)]

pub mod entering;
pub mod goals;
pub mod listed;
pub mod waiting;
