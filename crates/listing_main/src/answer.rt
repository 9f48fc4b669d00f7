// From the bytes of the three files to the text on standard output. Document 02, Req 03.
ghost use Rattle.std.specs.Prelude.{◌≡◌, ◌≤◌, length};
ghost use Rattle.sheet_files.specs.Words.{shop_words, order_words, trace_words};
ghost use Rattle.sheet_files.specs.Texts.{heading_bytes};
ghost use Rattle.listing_main.specs.Listed.{number_to};
ghost use Rattle.listing_main.specs.Pieces.{piece_bytes};
ghost use Rattle.listing_main.specs.Turns.{WritesAll};
ghost use Rattle.listing_main.specs.Answers.{Judges, Prints};

use crate::piece::PIECE_BYTES;
use crate::steps::{write_out, write_steps};
use replay::call::replay;
use replay::first;
use sheet_check::check::Trace;
use sheet_files::text;
use sheet_files::words::{OrderWords, ShopWords, TraceWords, front};
use sheet_index::index::Tables;

// The room of the text: some dozens of the largest pieces, so that few calls write it out. A heading fits too.
const ROOM_BYTES: usize = 48 * PIECE_BYTES;

// What went to standard output: the tree of an accepted trace, or the line of a refused one; or not all of it was written.
#[derive(Clone, Copy)]
pub enum Printed {
    Tree,
    Refusal,
    Unwritten,
}

// The trace is replayed before any byte of a tree is written. Of a trace that is refused the heading goes into the first bytes of the room.
// Answers how many they are; none of a trace that is accepted.
fn judge(shop: &[u16], order: &[u16], trace: &[u16], room: &mut [u8]) -> Option<usize>
    requires { heading_bytes ≤ length room.old }
    ensures { Judges shop.now order.now trace.now room.new result }
{
    let mut plan = [0u16; Trace::MOST_STEPS as usize];
    match replay(shop, order, trace, &mut plan) {
        Ok(_) => None,
        Err(failure) => Some(text::put_heading(
            room,
            failure.number(),
            failure.refusal.place,
            0,
            0,
            failure.atom_word(),
        )),
    }
}

// The tree of an accepted trace, from the order's first record on. Answers whether all of it was written.
fn write_tree(
    rt: &(impl Print + Eprint),
    shop: &[u16],
    order: &[u16],
    trace: &[u16],
    room: &mut [u8],
) -> bool
    requires trace_value { number_to shop.now order.now trace.now ≡ 0 }
    requires piece_bytes_in_bounds { piece_bytes ≤ length room.old }
    ensures { WritesAll shop.now order.now trace.now result }
{
    let mut tables = [0u16; Tables::WORDS];
    let mut problem = first::prepared(shop, order, &mut tables);
    write_steps(rt, shop, order, trace, &tables, &mut problem, room)
}

// The listing of three sheets goes to standard output.
fn list_words(rt: &(impl Print + Eprint), shop: &[u16], order: &[u16], trace: &[u16]) -> Printed
    ensures { Prints shop.now order.now trace.now result }
{
    let mut room = [0u8; ROOM_BYTES];
    match judge(shop, order, trace, &mut room) {
        None => {
            if write_tree(rt, shop, order, trace, &mut room) {
                Printed::Tree
            } else {
                Printed::Unwritten
            }
        }
        Some(end) => {
            if write_out(rt, front(&room, end)) {
                Printed::Refusal
            } else {
                Printed::Unwritten
            }
        }
    }
}

// The listing of what three files say. Kept apart: inlined, its words would take stack while the files are read too.
#[inline(never)]
pub fn list(rt: &(impl Print + Eprint), shop: &[u8], order: &[u8], trace: &[u8]) -> Printed
    ensures { Prints (shop_words shop.now) (order_words order.now) (trace_words trace.now) result }
{
    let mut shop_words = ShopWords::new();
    let mut order_words = OrderWords::new();
    let mut trace_words = TraceWords::new();
    shop_words.read(shop);
    order_words.read(order);
    trace_words.read(trace);
    let shop = shop_words.words();
    let order = order_words.words();
    let trace = trace_words.words();
    list_words(rt, shop, order, trace)
}
