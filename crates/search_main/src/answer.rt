// From the bytes of the two files to the line of the answer and the bytes of the trace. Document 01, "Questions" 41 to 43.
ghost use Rattle.std.specs.Prelude.{◌≡◌, ◌*◌, ◌≤◌, length};
ghost use Rattle.hgn.specs.Search as Search;
ghost use Rattle.search.specs.Founds.{searched_of};
ghost use Rattle.sheet_files.specs.Words.{shop_words, order_words, bytes_of, Filled};
ghost use Rattle.sheet_files.specs.Texts.{heading_bytes};
ghost use Rattle.search_main.specs.Printed.{trace_in, file_bytes, Answers};

use search::call::search;
use search::found::Steps;
use sheet_check::check::Trace;
use sheet_files::text;
use sheet_files::words::{OrderWords, ShopWords, bytes_of, front};
use sheet_files::written::Answer;
use sheet_rows::refusal::Refusal;

// The words of the longest trace that a search finds, and their bytes.
const ROOM_WORDS: usize = Trace::SIZES + 2 * (Steps::MOST as usize);

pub const FILE_BYTES: usize = 2 * ROOM_WORDS;

// The search of what two files say.
fn search_bytes(shop: &[u8], order: &[u8], depth: u32, room: &mut [u16]) -> Result<u16, Refusal>
    ensures { searched_of result room.new ≡ Search.search (shop_words shop.now) (order_words order.now) depth room.old }
{
    let mut shop_words = ShopWords::new();
    let mut order_words = OrderWords::new();
    shop_words.read(shop);
    order_words.read(order);
    search(shop_words.words(), order_words.words(), depth, room)
}

// The bytes of the trace that stands first in a search's room, with so many steps, go into the first bytes of another. Answers how many.
fn trace_bytes(words: &[u16], steps: u16, room: &mut [u8]) -> usize
    requires { 2 * length words.now ≤ length room.old }
    ensures { Filled (bytes_of (trace_in steps words.now)) room.old room.new result }
{
    let trace = front(words, Trace::SIZES + 2 * usize::from(steps));
    bytes_of(trace, room)
}

// The line goes into the first bytes of one room, and a trace that is found into those of another; what stands behind them is left free.
pub fn write_answer(
    shop: &[u8],
    order: &[u8],
    depth: u32,
    line: &mut [u8],
    file: &mut [u8],
) -> Answer
    requires { (heading_bytes ≤ length line.old) × (file_bytes ≤ length file.old) }
    ensures { Answers shop.now order.now depth line.new file.new result }
{
    let mut room = [0u16; ROOM_WORDS];
    match search_bytes(shop, order, depth, &mut room) {
        Ok(steps) => {
            let end = text::put_accepted(line, steps);
            let size = trace_bytes(&room, steps, file);
            Answer {
                line: end,
                file: Some(size),
            }
        }
        Err(refusal) => {
            let end = text::put_refusal(line, refusal);
            Answer {
                line: end,
                file: None,
            }
        }
    }
}
