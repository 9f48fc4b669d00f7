// Rows of a sheet, lent as their tags and their values. Document 01, "The three sheets".
ghost use Rattle.std.specs.Prelude.{◌≡◌, ◌+◌, ◌≤◌, min, length, drop};
ghost use Rattle.sheet_index.specs.Index.{column_part, tags_of, values_of, span_rows, rows_in, rows_left};
ghost use Rattle.sheet_index.specs.Tables.{HasRows};

use crate::index;
use crate::index::Span;
use sheet_check::rows::{Layout, Row};
use sheet_rows::position::Sheet;
use std::iter::Zip;
use std::slice::Iter;

// Row i is tag i with value i, where there are both.
#[derive(Clone, Copy)]
pub struct Rows<'a> {
    pub tags: &'a [u16],
    pub values: &'a [u16],
}

// Rows `from` up to `to` of the tags or of the values, which stand from word `column` on; none where the sheet has no such rows.
fn column_part(words: &[u16], layout: Layout, column: usize, from: Row, to: Row) -> &[u16]
    requires { (layout.sizes ≤ 4) × (layout.rows ≤ 65535) × (column ≤ layout.sizes + layout.rows) }
    ensures { result.now ≡ column_part words.now layout column from.0 to.0 }
{
    let start = column + from.0 as usize;
    let end = column + to.0 as usize;
    if from.0 <= to.0
        && to.0 as usize <= layout.rows
        && layout.sizes + (layout.rows + layout.rows) <= words.len()
    {
        &words[start..end]
    } else {
        &[]
    }
}

impl<'a> Rows<'a> {
    // Rows `from` up to `to` of a sheet; none where the sheet has no such rows.
    fn of_sheet(words: &'a [u16], layout: Layout, from: Row, to: Row) -> Rows<'a>
        requires { (layout.sizes ≤ 4) × (layout.rows ≤ 65535) }
        ensures tags { result.tags.now ≡ column_part words.now layout layout.sizes from.0 to.0 }
        ensures values { result.values.now ≡ column_part words.now layout (layout.sizes + layout.rows) from.0 to.0 }
    {
        Rows {
            tags: column_part(words, layout, layout.sizes, from, to),
            values: column_part(words, layout, layout.sizes + layout.rows, from, to),
        }
    }

    // Rows `from` up to `to` of the shop sheet; none where it has no such rows.
    pub fn of_shop(shop: &'a [u16], from: Row, to: Row) -> Rows<'a>
        ensures { HasRows shop.now from.0 to.0 result }
    {
        Rows::of_sheet(shop, index::layout_of(Sheet::Shop, shop), from, to)
    }

    // The number of the rows.
    pub fn count(self) -> usize
        ensures { result ≡ min (length self.entry.tags.now) (length self.entry.values.now) }
    {
        self.tags.len().min(self.values.len())
    }

    // The rows behind the first so many.
    pub fn skip(self, count: usize) -> Rows<'a>
        requires { (count ≤ length self.tags.now) × (count ≤ length self.values.now) }
        ensures { rows_in result ≡ drop count (rows_in self.entry) }
    {
        Rows {
            tags: &self.tags[count..],
            values: &self.values[count..],
        }
    }

    // The tag and the value of each.
    pub fn iter(self) -> Zip<Iter<'a, u16>, Iter<'a, u16>>
        ensures { rows_left result ≡ rows_in self.entry }
    {
        self.tags.iter().zip(self.values)
    }
}

impl Span {
    // The rows of a span.
    pub fn rows<'a>(self, shop: &'a [u16], order: &'a [u16]) -> Rows<'a>
        ensures tags { result.tags.now ≡ tags_of self shop.now order.now }
        ensures values { result.values.now ≡ values_of self shop.now order.now }
        ensures rows { rows_in result ≡ span_rows shop.now order.now self }
    {
        let words = index::sheet_words(self.sheet, shop, order);
        Rows::of_sheet(
            words,
            index::layout_of(self.sheet, words),
            self.from,
            self.to,
        )
    }
}
