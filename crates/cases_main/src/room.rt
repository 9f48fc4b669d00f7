// The room that a case lends: what its words hold before the call, and what is written of them after it.
ghost use Rattle.std.specs.Prelude.{◌≡◌, ◌≤◌, length};
ghost use Rattle.cases_main.specs.Rooms.{most_room, blank_at, Blank};

use crate::{line, sheet};
use sheet_check::check::Trace;

// The words of a room where a case does not say: the plan of every trace fits.
const USUAL: u16 = Trace::MOST_STEPS;

// The words of the longest room: its length is a word.
pub const MOST: usize = u16::MAX as usize;

// The room's length that a case says, or the usual one.
pub fn length_of(text: &[u8]) -> usize
    ensures { result ≤ most_room }
{
    let mut said = [USUAL];
    sheet::write(&mut said, sheet::TRACE, text);
    usize::from(said[0])
}

// What a room's word holds before the call. No move has such a number, and words near each other differ.
fn blank(at: usize) -> u16
    ensures { result ≡ blank_at at }
{
    40000 + (at % 20000) as u16
}

// Every word of a room becomes what it holds before a call.
pub fn fill(room: &mut [u16])
    ensures { Blank (length room.old) room.new }
{
    for (at, word) in room.iter_mut().enumerate() {
        *word = blank(at);
    }
}

pub fn write_rest(rt: &impl Print, room: &[u16], from: usize) {
    let mut words = room.iter().enumerate().skip(from);
    if let Some((at, _)) = words.find(|&(at, &word)| word != blank(at)) {
        line::text(rt, b"; rest changed");
        line::number(rt, at as u64);
    } else {
        line::text(rt, b"; rest kept");
    }
}

// Words that are all equal, as the cases write them: the word, or `3(7)` where it stands several times.
fn write_words(rt: &impl Print, words: &[u16]) {
    match words {
        [] => {}
        [word] => line::number(rt, u64::from(*word)),
        [word, ..] => {
            line::number(rt, words.len() as u64);
            line::text(rt, b"(");
            line::digits(rt, u64::from(*word));
            line::text(rt, b")");
        }
    }
}

pub fn write_list(rt: &impl Print, words: &[u16]) {
    for equal in words.chunk_by(|word, next| word == next) {
        write_words(rt, equal);
    }
    write_none(rt, words.is_empty());
}

// The words of a room from `from` on, so many, or none where it has fewer.
fn part(room: &[u16], from: usize, length: usize) -> &[u16] {
    room.get(from..)
        .and_then(|words| words.get(..length))
        .unwrap_or(&[])
}

pub fn write_part(rt: &impl Print, room: &[u16], from: usize, length: usize) {
    write_list(rt, part(room, from, length));
}

pub fn write_none(rt: &impl Print, is_empty: bool) {
    if is_empty {
        line::text(rt, b" none");
    }
}
