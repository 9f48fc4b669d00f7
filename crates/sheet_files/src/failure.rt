// What is told of a failure, as texts that print: bytes, and the operating system's reason.
use crate::words::front;
use std::fmt::{Display, Formatter};
use std::io::{Cursor, Error, Write};
use std::{fmt, str};

// Bytes as text. What is no UTF-8 among them stands as U+FFFD.
#[derive(Drop)]
pub(crate) struct Lossy<'a>(pub(crate) &'a [u8]);

impl<'a> Display for Lossy<'a> {
    fn fmt<W: fmt::Write>(&self, f: &mut Formatter<W>) -> fmt::Result {
        for chunk in self.0.utf8_chunks() {
            f.write_str(chunk.valid())?;
            if !chunk.invalid().is_empty() {
                f.write_str("\u{FFFD}")?;
            }
        }
        Ok(())
    }
}

// Why something failed, in the operating system's words alone: behind these std's text has the error's number.
#[derive(Drop)]
pub(crate) struct Reason(pub(crate) Error);

impl Reason {
    // So many bytes hold the words and the number.
    const MOST_BYTES: usize = 256;
}

impl Display for Reason {
    fn fmt<W: fmt::Write>(&self, f: &mut Formatter<W>) -> fmt::Result {
        let mut said = Cursor::new([0u8; Reason::MOST_BYTES]);
        // Of a longer text the beginning is told.
        let _ = write!(said, "{}", self.0);
        let length = said.position() as usize;
        let bytes = front(said.get_ref(), length);
        f.write_str(before_number(str::from_utf8(bytes).unwrap_or("")))
    }
}

fn before_number(said: &str) -> &str {
    match said.split_once(" (os error ") {
        Some((words, _)) => words,
        None => said,
    }
}
