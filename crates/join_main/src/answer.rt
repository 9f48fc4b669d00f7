// From the bytes of the four files to the line of the answer and the bytes of the joined sheet. Document 02, Req 02.
ghost use Rattle.std.specs.Prelude.{◌≡◌, ◌*◌, ◌≤◌, length};
ghost use Rattle.hgn.specs.JoinSheet.{write_join, sheet_in};
ghost use Rattle.sheet_rows.specs.Refusals.{lent_of};
ghost use Rattle.sheet_files.specs.Words.{shop_words, order_words, bytes_of, Filled};
ghost use Rattle.sheet_files.specs.Texts.{heading_bytes};
ghost use Rattle.join_main.specs.Printed.{file_bytes, Joins, Answers};

use crate::same::same_shops;
use sheet_check::check::Order;
use sheet_check::rows::Layout;
use sheet_check::sizes::OrderSizes;
use sheet_files::text;
use sheet_files::words::{OrderWords, ShopWords, bytes_of, front};
use sheet_files::written::Answer;
use sheet_join::call::join;
use sheet_rows::refusal::Refusal;

// The words of the largest order, and their bytes.
const ROOM_WORDS: usize = Order::SIZES + 2 * (Layout::MOST_ROWS as usize);

pub const FILE_BYTES: usize = 2 * ROOM_WORDS;

// The join of what three files say.
fn join_bytes(shop: &[u8], first: &[u8], second: &[u8], room: &mut [u16]) -> Result<(), Refusal>
    ensures { lent_of result room.new ≡ write_join (shop_words shop.now) (order_words first.now) (order_words second.now) room.old }
{
    let mut shop_words = ShopWords::new();
    let mut first_words = OrderWords::new();
    let mut second_words = OrderWords::new();
    shop_words.read(shop);
    first_words.read(first);
    second_words.read(second);
    let shop = shop_words.words();
    let first = first_words.words();
    let second = second_words.words();
    join(shop, first, second, room)
}

// The bytes of the order sheet that stands first in a join's room go into the first bytes of another. Answers how many.
fn sheet_bytes(words: &[u16], room: &mut [u8]) -> usize
    requires { 2 * length words.now ≤ length room.old }
    ensures { Filled (bytes_of (sheet_in words.now)) room.old room.new result }
{
    let sizes = OrderSizes::of(words);
    let sheet = front(words, Order::SIZES + 2 * usize::from(sizes.rows));
    bytes_of(sheet, room)
}

// The line goes into the first bytes of one room, and a sheet that is written into those of another; what stands behind them is left free.
fn write_join(shop: &[u8], first: &[u8], second: &[u8], line: &mut [u8], file: &mut [u8]) -> Answer
    requires { (heading_bytes ≤ length line.old) × (file_bytes ≤ length file.old) }
    ensures { Joins shop.now first.now second.now line.new file.new result }
{
    let mut room = [0u16; ROOM_WORDS];
    match join_bytes(shop, first, second, &mut room) {
        Ok(()) => {
            let end = text::put_accepted(line, 0);
            let size = sheet_bytes(&room, file);
            Answer {
                line: end,
                file: Some(size),
            }
        }
        Err(refusal) => {
            let end = text::put_refusal(line, refusal);
            Answer {
                line: end,
                file: None,
            }
        }
    }
}

// The line and the file of a join, by the first of two shop sheets; none where the other differs from it.
pub fn write_answer(
    shop: &[u8],
    other: &[u8],
    first: &[u8],
    second: &[u8],
    line: &mut [u8],
    file: &mut [u8],
) -> Option<Answer>
    requires { (heading_bytes ≤ length line.old) × (file_bytes ≤ length file.old) }
    ensures { Answers shop.now other.now first.now second.now line.new file.new result }
{
    if same_shops(shop, other) {
        return Some(write_join(shop, first, second, line, file));
    }
    None
}
