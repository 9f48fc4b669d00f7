// A number of steps that no accepted trace goes below: what every one must do. A search begins there.
#![tactic(auto)]

pub mod achievers;
pub mod least;
pub mod needed_moves;
pub mod relevance;
