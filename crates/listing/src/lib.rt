// The listing of a derivation: what each step that is taken gives to it. Document 02, Req 03.
#![tactic(auto)]

pub mod above;
pub mod line;
pub mod lines;
