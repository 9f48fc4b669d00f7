// What a program on the files of the sheets is made of: the files read and written, their bytes as words, numbers as decimal text, the line that
// begins an answer. Document 01, "One core of sixty centimetres". Only `file` and `written` call the operating system.
#![tactic(auto)]

mod failure;
pub mod file;
pub mod text;
pub mod words;
pub mod written;
