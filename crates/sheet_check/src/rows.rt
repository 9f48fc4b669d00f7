// The rows of a sheet, read in one pass. Document 01, "The three sheets".
ghost use Rattle.std.specs.Prelude.{◌≡◌, ◌+◌, ◌<◌, ◌≤◌, length, get_or};
ghost use Rattle.hgn.specs.Rows.{most_rows, rows_of};
ghost use Rattle.hgn.specs.Rows as HgnRow;
ghost use Rattle.sheet_check.specs.Puts.{put_row};
ghost use Rattle.sheet_check.specs.Scanned.{Scanned};

use crate::part_counts::PartCounts;
use sheet_rows::position::{Position, Sheet};
use sheet_rows::refusal::Refusal;

// A row by its number, from 0.
#[derive(Clone, Copy)]
pub struct Row(pub u16);

// Where a sheet's rows stand: behind its sizes, first all tags, then all values.
#[derive(Clone, Copy)]
pub struct Layout {
    pub sizes: usize,
    pub rows: usize,
}

// What a pass over the rows comes to where each row passes: the position at the end, and what was counted.
#[derive(Clone, Copy)]
pub struct Scan {
    pub position: Position,
    pub counts: PartCounts,
}

// A word of a sheet; 0 past its end.
pub fn word(words: &[u16], at: usize) -> u16
    ensures { result ≡ get_or words.now at 0 }
{
    words.get(at).copied().unwrap_or(0)
}

impl Layout {
    // The most rows of a sheet.
    pub const MOST_ROWS: u16 = 4000;

    pub fn tag(self, words: &[u16], row: Row) -> u16
        requires { (row.0 < self.rows) × (self.sizes + (self.rows + self.rows) ≤ length words.now) }
        ensures { result ≡ get_or words.now (self.sizes + row.0) 0 }
    {
        words[self.sizes + usize::from(row.0)]
    }

    pub fn value(self, words: &[u16], row: Row) -> u16
        requires { (row.0 < self.rows) × (self.sizes + (self.rows + self.rows) ≤ length words.now) }
        ensures { result ≡ get_or words.now (self.sizes + self.rows + row.0) 0 }
    {
        words[self.sizes + self.rows + usize::from(row.0)]
    }

    // Puts a row into lent room.
    pub fn put(self, room: &mut [u16], row: Row, tag: u16, value: u16)
        requires { (row.0 < self.rows) × (self.sizes + (self.rows + self.rows) ≤ length room.old) }
        ensures { room.new ≡ put_row self.sizes self.rows row.0 (HgnRow.row tag value) room.old }
    {
        room[self.sizes + usize::from(row.0)] = tag;
        room[self.sizes + self.rows + usize::from(row.0)] = value;
    }

    // The questions of every row, in order.
    pub fn scan(self, words: &[u16], sheet: Sheet, atoms: u16) -> Result<Scan, Refusal>
        requires { (self.sizes + (self.rows + self.rows) ≤ length words.now) × (self.rows ≤ most_rows) }
        ensures { Scanned sheet atoms (rows_of self.sizes self.rows words.now) result }
    {
        let mut position = Position::opening();
        let mut counts = PartCounts::nothing();
        for i in 0..self.rows {
            let row = Row(i as u16);
            let tag = self.tag(words, row);
            let value = self.value(words, row);
            if position.goes_on(atoms, tag, value) {
                counts.count_in_group(tag);
                position = position.above(value);
            } else {
                counts.count(tag);
                match position.read(sheet, atoms, tag, value) {
                    Ok(next) => position = next,
                    Err(question) => return Err(Refusal::by(question).at(row.0)),
                }
            }
        }
        Ok(Scan { position, counts })
    }
}
