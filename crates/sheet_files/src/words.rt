// Words of bytes, and bytes of words. Document 01, "One core of sixty centimetres".
ghost use Rattle.std.specs.Prelude.{◌≡◌, ℕ, ◌*◌, ◌≤◌, List, [], length, take};
ghost use Rattle.sheet_files.specs.Words.{words_read, bytes_of, Filled};

use crate::file::{ORDER_WORDS, SHOP_WORDS, TRACE_WORDS};
use std::marker::Model;

// The words of a sheet's file, at most so many of the first ones.
#[derive(Drop)]
pub struct SheetWords<const MOST: usize> {
    room: [u16; MOST],
    count: usize,
}

// Clauses see the words.
impl<const MOST: usize> Model for SheetWords<MOST> {
    ghost Value = { List ℕ };

    ghost view = { λ s. take s.count s.room };

    ghost invariant = { λ s. s.count ≤ MOST };
}

// The words of a file of each kind.
pub type ShopWords = SheetWords<SHOP_WORDS>;

pub type OrderWords = SheetWords<ORDER_WORDS>;

pub type TraceWords = SheetWords<TRACE_WORDS>;

impl<const MOST: usize> SheetWords<MOST> {
    // No words.
    #[inline(always)]
    pub fn new() -> Self
        ensures { result ≡ [] }
    {
        SheetWords {
            room: [0; MOST],
            count: 0,
        }
    }

    // The words of the first bytes, so many or all, in place of the words so far. An odd last byte is no word.
    pub fn read(&mut self, bytes: &[u8])
        ensures { self.new ≡ words_read (2 * MOST) bytes.now }
    {
        let count = MOST.min(bytes.len() / 2);
        // Read by index: after `room.iter_mut().zip(bytes.chunks_exact(2))` no clause of std says what was written.
        for (i, word) in self.room[..count].iter_mut().enumerate() {
            *word = u16::from_le_bytes([bytes[2 * i], bytes[2 * i + 1]]);
        }
        self.count = count;
    }

    // The same as a new value, which costs the caller a copy.
    pub fn of(bytes: &[u8]) -> Self
        ensures { result ≡ words_read (2 * MOST) bytes.now }
    {
        let mut words = Self::new();
        words.read(bytes);
        words
    }

    pub fn words(&self) -> &[u16]
        ensures { result.now ≡ self.now }
    {
        &self.room[..self.count]
    }
}

// The bytes of the words go into the first ones of the room, two for each word. Answers how many, and not the bytes themselves: where a result
// borrows from the room, no clause can say what stands in the room behind them.
pub fn bytes_of(words: &[u16], room: &mut [u8]) -> usize
    requires { 2 * length words.now ≤ length room.old }
    ensures { Filled (bytes_of words.now) room.old room.new result }
{
    for (i, word) in words.iter().enumerate() {
        room[2 * i..2 * i + 2].copy_from_slice(&word.to_le_bytes());
    }
    2 * words.len()
}

// The first items, so many or all.
pub fn front<T>(items: &[T], count: usize) -> &[T]
    ensures { result.now ≡ take count items.now }
{
    items.get(..count).unwrap_or(items)
}
