// The files that a program reads. Document 01, "One core of sixty centimetres" and "The three sheets".
ghost use Rattle.std.specs.Prelude.{◌≤◌, length, IfOk, IfSome};

use crate::failure::{Lossy, Reason};
use sheet_check::check::{Order, Shop, Trace};
use sheet_check::rows::Layout;
use std::io::{Error, ErrorKind, Read};
use std::rt::Files;
use std::{fs, io, str};

// One word past the largest sheet of a kind, so that a sheet that is too long is refused by its length, as any other.
pub const SHOP_WORDS: usize = Shop::SIZES + 2 * (Layout::MOST_ROWS as usize) + 1;

pub const ORDER_WORDS: usize = Order::SIZES + 2 * (Layout::MOST_ROWS as usize) + 1;

pub const TRACE_WORDS: usize = Trace::SIZES + 2 * (Trace::MOST_STEPS as usize) + 1;

// The bytes of so many words.
pub const SHOP_BYTES: usize = 2 * SHOP_WORDS;

pub const ORDER_BYTES: usize = 2 * ORDER_WORDS;

pub const TRACE_BYTES: usize = 2 * TRACE_WORDS;

// On standard error: the program, what it could not do (between a colon and the name), the file, and the operating system's reason.
pub fn tell_failure(rt: &impl Eprint, program: &[u8], deed: &[u8], name: &[u8], error: Error) {
    let _ = rt.eprintln(format_args!(
        "{}{}{}: {}",
        Lossy(program),
        Lossy(deed),
        Lossy(name),
        Reason(error)
    ));
}

fn tell_unread(rt: &impl Eprint, program: &[u8], name: &[u8], error: Error) {
    tell_failure(rt, program, b": cannot read ", name, error);
}

// Reads on until the room is full or the file ends, and answers how many bytes came; a read that a signal interrupts is made again. A proved
// loop has to end, and nothing says that signals do, so the turns are counted up to a number that no run reaches.
fn read_open<F: Read>(file: &mut F, room: &mut [u8]) -> io::Result<usize>
    ensures { IfOk result (λ count. count ≤ length room.new) }
{
    let mut count = 0;
    for _ in 0..u64::MAX {
        if count == room.len() {
            return Ok(count);
        }
        match file.read(&mut room[count..]) {
            Ok(0) => return Ok(count),
            Ok(more) => count += more,
            Err(error) if error.kind() == ErrorKind::Interrupted => {}
            Err(error) => return Err(error),
        }
    }
    Err(Error::from(ErrorKind::Interrupted))
}

// The path of a file of the current folder. A name that is no UTF-8 is refused.
pub(crate) fn path_of(name: &[u8]) -> io::Result<&str> {
    match str::from_utf8(name) {
        Ok(path) => Ok(path),
        Err(_) => Err(Error::new(ErrorKind::InvalidFilename, "the name is no UTF-8")),
    }
}

fn open<R: Files>(rt: &R, name: &[u8]) -> io::Result<R::File> {
    fs::open(rt, path_of(name)?)
}

// The bytes of a file of the current folder go into the first ones of the room, as far as it goes. A missing file is empty. Answers how many.
fn read_named(rt: &impl Files, name: &[u8], room: &mut [u8]) -> io::Result<usize>
    ensures { IfOk result (λ count. count ≤ length room.new) }
{
    match open(rt, name) {
        Ok(mut file) => read_open(&mut file, room),
        Err(error) if error.kind() == ErrorKind::NotFound => Ok(0),
        Err(error) => Err(error),
    }
}

// The bytes of a file of the current folder, as far as the room goes into which they are read. A missing file is empty; one that is there and
// can't be opened or read is told on standard error in the program's name, and is no empty file. What a file holds no contract says: which
// bytes come, and how many, is left free, but no more than the room takes.
pub fn read<'a>(
    rt: &(impl Files + Eprint),
    program: &[u8],
    name: &[u8],
    room: &'a mut [u8],
) -> Option<&'a [u8]>
    ensures { IfSome result (λ bytes. length bytes.now ≤ length room.old) }
{
    match read_named(rt, name, room) {
        Ok(count) => Some(&room[..count]),
        Err(error) => {
            tell_unread(rt, program, name, error);
            None
        }
    }
}
