// The reader of a trace: the trace held open together with the row that it has reached. Document 02, Req 03; document 01, "The three
// sheets". No public call: programs that tell a trace's steps one by one read them through it.
#![tactic(auto)]

pub mod reader;
