// The files that a program writes, and what it prints. Document 01, "One core of sixty centimetres", for the words of a file. What a
// file or a line then holds no contract says: the bytes come from functions whose contracts do.
use crate::file::{path_of, tell_failure};
use std::fs::{OpenFile, OpenOptions};
use std::io::Write;
use std::rt::Files;
use std::{fs, io};

// The answer of a call that writes a sheet into lent rooms: how many bytes of one are the line on standard output and, where a sheet is written, how
// many of another are its file.
#[derive(Clone, Copy)]
pub struct Answer {
    pub line: usize,
    pub file: Option<usize>,
}

// All the bytes go into the open file, which is then closed. What a close would tell of them no caller sees, so the system is first asked to
// keep them.
fn fill<F: Write + OpenFile + Drop>(mut file: F, bytes: &[u8]) -> io::Result<()> {
    file.write_all(bytes)?;
    file.sync_all()
}

// Opens a new file for writing. It fails where a file has the name.
fn create<R: Files>(rt: &R, name: &[u8]) -> io::Result<R::File> {
    OpenOptions::new()
        .write(true)
        .create_new(true)
        .open(rt, path_of(name)?)
}

// Removes what was half made. Where that fails too, nothing more can be done.
fn remove(rt: &impl Files, name: &[u8]) {
    if let Ok(path) = path_of(name) {
        let _ = fs::remove_file(rt, path);
    }
}

// Whether it was written. Where not, standard error says so, in the program's name and of the file `name`.
fn is_written(rt: &impl Eprint, program: &[u8], name: &[u8], outcome: io::Result<()>) -> bool {
    match outcome {
        Ok(()) => true,
        Err(error) => {
            tell_failure(rt, program, b": cannot write ", name, error);
            false
        }
    }
}

// The same of a file that stands under the name `made`: where it was not written, what stands there is removed, once that is told.
fn is_whole(
    rt: &(impl Files + Eprint),
    program: &[u8],
    name: &[u8],
    made: &[u8],
    outcome: io::Result<()>,
) -> bool {
    let is_whole = is_written(rt, program, name, outcome);
    if !is_whole {
        remove(rt, made);
    }
    is_whole
}

// Makes the new file `made` with these bytes. Answers whether it stands there whole. Where not, this is told as of the file `name`, and what was
// made is removed; a file that stood there before is not touched.
fn make(
    rt: &(impl Files + Eprint),
    program: &[u8],
    name: &[u8],
    made: &[u8],
    bytes: &[u8],
) -> bool {
    match create(rt, made) {
        Ok(file) => is_whole(rt, program, name, made, fill(file, bytes)),
        Err(error) => is_written(rt, program, name, Err(error)),
    }
}

// Makes a new file of the current folder. Answers whether it stands there whole; where not, this was told, and a file that stood there before
// is as it was.
pub fn write_new(rt: &(impl Files + Eprint), program: &[u8], name: &[u8], bytes: &[u8]) -> bool {
    make(rt, program, name, name, bytes)
}

fn rename(rt: &impl Files, from: &[u8], to: &[u8]) -> io::Result<()> {
    fs::rename(rt, path_of(from)?, path_of(to)?)
}

// Puts a file of the current folder in the place of one that may stand there: makes it under the name `made`, which no file has, and renames
// it once it is whole. Answers whether it did; where not, this was told, and the older file is as it was.
pub fn replace(
    rt: &(impl Files + Eprint),
    program: &[u8],
    name: &[u8],
    made: &[u8],
    bytes: &[u8],
) -> bool {
    make(rt, program, name, made, bytes)
        && is_whole(rt, program, name, made, rename(rt, made, name))
}

// A text goes to standard output. Answers whether all of it did; where not, standard error says so, in the program's name and of `what`.
pub fn print(rt: &(impl Print + Eprint), program: &[u8], what: &[u8], text: &[u8]) -> bool {
    is_written(rt, program, what, rt.write_all(text))
}

// The line of an answer goes to standard output. Where that fails, standard error says so.
pub fn print_line(rt: &(impl Print + Eprint), program: &[u8], line: &[u8]) {
    print(rt, program, b"the answer", line);
}
