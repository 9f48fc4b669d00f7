// Sheets and traces written from text, as document 01 writes them: the sizes, then rows (tag value) or steps (move place).
// A blank ends a number and a comma says nothing. `3(7 0, 11 n)` is what stands in the brackets three times, with n 0, 1 and 2.
ghost use Rattle.std.specs.Prelude.{◌≡◌, ◌≤◌, length};
ghost use Rattle.hgn.specs.Lists.{all};
ghost use Rattle.cases_main.specs.Plain.{plain_byte};

use sheet_check::check::{Order, Shop, Trace};
use sheet_check::rows::word;

// How many sizes each begins with; the last of them counts the rows or steps.
pub const SHOP: u16 = Shop::SIZES as u16;

pub const ORDER: u16 = Order::SIZES as u16;

pub const TRACE: u16 = Trace::SIZES as u16;

// Rows that are given by themselves have no sizes before them.
pub const ROWS: u16 = 0;

// The words of a room: those of the longest sheet whose sizes can count its rows, and one more, so that a longer one is not cut to it.
pub const ROOM: usize = Shop::SIZES + 2 * (u16::MAX as usize) + 1;

// More bytes than are read of any text, with what is repeated.
const MOST_BYTES: u32 = 10000000;

// Where the reading of a text stands.
#[derive(Drop)]
struct Pen {
    // How many numbers are written, and the one that is being read, if one is.
    at: usize,
    number: Option<u16>,
    // The next byte.
    next: usize,
    // What is repeated: its first byte, how often, and the turn.
    unit: usize,
    times: u16,
    turn: u16,
}

// Where a text's number stands in the sheet: the sizes first, then each row's tag and value in their own array.
fn place(room: &[u16], sizes: u16, at: usize) -> usize {
    let first = usize::from(sizes);
    if first == 0 || at < first {
        return at;
    }
    let row = (at - first) / 2;
    if (at - first) % 2 == 0 {
        first + row
    } else {
        first + usize::from(word(room, first - 1)) + row
    }
}

impl Pen {
    // The number that is being read, if one is, goes into the room, unless that is full.
    fn end_number(&mut self, room: &mut [u16], sizes: u16)
        requires { self.old.at ≤ length room.old }
        ensures { self.new.at ≤ length room.new }
    {
        let Some(number) = self.number.take() else {
            return;
        };
        if self.at < room.len() {
            let to = place(room, sizes, self.at);
            if let Some(word) = room.get_mut(to) {
                *word = number;
            }
            self.at += 1;
        }
    }

    fn add_digit(&mut self, digit: u8)
        ensures { self.new.at ≡ self.old.at }
    {
        let before = self.number.unwrap_or(0);
        self.number = Some(before.wrapping_mul(10).wrapping_add(u16::from(digit)));
    }

    // Behind an opening bracket; the number before it says how often.
    fn open(&mut self)
        ensures { self.new.at ≡ self.old.at }
    {
        self.times = self.number.take().unwrap_or(0);
        self.turn = 0;
        self.unit = self.next;
    }

    // Behind a closing bracket, and for the next turn at the opening one.
    fn close(&mut self)
        ensures { self.new.at ≡ self.old.at }
    {
        if self.turn < self.times {
            self.turn += 1;
            if self.turn < self.times {
                self.next = self.unit;
            }
        }
    }

    fn read(&mut self, room: &mut [u16], sizes: u16, byte: u8)
        requires { self.old.at ≤ length room.old }
        ensures { self.new.at ≤ length room.new }
    {
        match byte {
            b' ' => self.end_number(room, sizes),
            b'n' => self.number = Some(self.turn),
            b'(' => self.open(),
            b')' => {
                self.end_number(room, sizes);
                self.close();
            }
            b'0'..=b'9' => self.add_digit(byte - b'0'),
            _ => {}
        }
    }
}

// Writes a sheet into the first words of a room. Answers its length, or the room's where the sheet is longer.
pub fn write(room: &mut [u16], sizes: u16, text: &[u8]) -> usize
    ensures { result ≤ length room.new }
{
    let mut pen = Pen {
        at: 0,
        number: None,
        next: 0,
        unit: 0,
        times: 0,
        turn: 0,
    };
    for _ in 0..MOST_BYTES {
        let Some(&byte) = text.get(pen.next) else {
            pen.end_number(room, sizes);
            break;
        };
        pen.next += 1;
        pen.read(room, sizes, byte);
    }
    pen.at
}

// Whether a text has no other bytes than those that sheets, and the bars between them, are written with.
pub fn is_plain(text: &[u8]) -> bool
    ensures { result ≡ all plain_byte text.now }
{
    text.iter().all(|&byte| is_plain_byte(byte))
}

fn is_plain_byte(byte: u8) -> bool
    ensures { result ≡ plain_byte byte }
{
    matches!(byte, b'0'..=b'9' | b' ' | b',' | b'(' | b')' | b'n' | b'|')
}
