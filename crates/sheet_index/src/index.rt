// Where the parts of a sheet stand, found in one pass.
ghost use Rattle.std.specs.Prelude.{◌≡◌, ◌≤◌};
ghost use Rattle.sheet_index.specs.Index.{Indexable, Filled, sheet_words, layout_of};

use sheet_check::check::{Order, Shop};
use sheet_check::rows::{Layout, Row, word};
use sheet_check::sizes::{OrderSizes, ShopSizes};
use sheet_rows::position::Sheet;
use sheet_rows::tag;

// Rows `from` up to `to` of a sheet: an action, a method, a node.
#[derive(Clone, Copy)]
pub struct Span {
    pub sheet: Sheet,
    pub from: Row,
    pub to: Row,
}

// Where the parts of a sheet stand, in one table of words: first the ends, for each row the next row that begins an action, a method or
// a node; behind room for the ends of the most rows the starts, where each action and each method begins, with the end of the last.
#[derive(Clone, Copy)]
pub struct Tables {}

impl Tables {
    // Where the starts begin.
    pub const STARTS: usize = Layout::MOST_ROWS as usize;
    // Room for the ends and the starts of every sheet.
    pub const WORDS: usize = Self::STARTS + Shop::MOST_OPERATORS + 1;
}

// The table of a sheet with so many actions and methods, filled from its last row to its first: `end` is the next row that begins a part.
pub fn fill_tables(words: &[u16], layout: Layout, tables: &mut [u16], operators: usize)
    requires { Indexable words.now layout tables.old operators }
    ensures { Filled words.now layout operators tables.old tables.new }
{
    let rows = layout.rows as u16;
    tables[Tables::STARTS + operators] = rows;
    let mut end = rows;
    let mut operator = operators;
    for row in (0..rows).rev() {
        let tag = layout.tag(words, Row(row));
        tables[row as usize] = end;
        match tag {
            tag::ACTION | tag::METHOD => {
                end = row;
                operator -= 1;
                tables[Tables::STARTS + operator] = row;
            }
            tag::NODE => end = row,
            _ => {}
        }
    }
}

// The words of a sheet.
pub fn sheet_words<'a>(sheet: Sheet, shop: &'a [u16], order: &'a [u16]) -> &'a [u16]
    ensures { result.now ≡ sheet_words sheet shop.now order.now }
{
    match sheet {
        Sheet::Shop => shop,
        Sheet::Order => order,
    }
}

// Where a sheet's rows stand: N is its last size.
pub fn layout_of(sheet: Sheet, words: &[u16]) -> Layout
    ensures { (result ≡ layout_of sheet words.now) × (result.sizes ≤ 4) × (result.rows ≤ 65535) }
{
    match sheet {
        Sheet::Shop => Layout {
            sizes: Shop::SIZES,
            rows: word(words, ShopSizes::ROWS) as usize,
        },
        Sheet::Order => Layout {
            sizes: Order::SIZES,
            rows: word(words, OrderSizes::ROWS) as usize,
        },
    }
}
