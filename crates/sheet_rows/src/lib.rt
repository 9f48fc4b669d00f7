// A sheet's tags, what a refusal tells, and how one row is read: what may follow, ranges, groups. Document 01, "The three sheets" and "Questions". The
// definitions are those of `hgn`.
#![tactic(auto)]

pub mod position;
pub mod refusal;
pub mod tag;
