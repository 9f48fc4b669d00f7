// The replay: its call, the first record of an order, the run of a trace, the plan. Document 01, "How a derivation runs" and
// "Questions".
#![tactic(auto)]

pub mod answer;
pub mod call;
pub mod first;
pub mod plan;
pub mod run;
