// From the bytes of the three files to the moments on standard output. Document 01, "How a derivation runs".
ghost use Rattle.std.specs.Prelude.{◌≡◌, ◌+◌, ◌≤◌, ◌<◌, ◌^◌, length};
ghost use Rattle.hgn.specs.Order.{check_order};
ghost use Rattle.hgn.specs.Questions.{passed};
ghost use Rattle.replay.specs.Running.{Prepared};
ghost use Rattle.sheet_files.specs.Words.{shop_words, order_words, trace_words};
ghost use Rattle.display_main.specs.Moments.{moment_bytes, turn_bytes};
ghost use Rattle.display_main.specs.Shown.{steps_text, shown_text, Writes, FewBytes, FirstWritten};

use crate::moment::put_moment;
use crate::turn::{TURN_BYTES, take_turn};
use replay::first;
use sheet_check::check::{check_order, check_trace};
use sheet_files::words::{OrderWords, ShopWords, TraceWords, front};
use sheet_files::written;
use sheet_index::index::Tables;
use step::problem::Problem;
use trace_reader::reader::Reader;

// A text goes to standard output, behind so many bytes. Answers how many there are with it; none where not all of it went out, and then standard
// error says so. It is the only function here that writes.
fn write_out(rt: &(impl Print + Eprint), text: &[u8], before: usize) -> Option<usize>
    requires { before + length text.now < 2 ^ 64 }
    ensures { Writes before text.now result }
{
    if written::print(rt, b"display", b"the moments", text) {
        Some(before + text.len())
    } else {
        None
    }
}

// The steps of a trace from the first on, up to the last or to the first that is refused, each with the moment after it.
fn write_steps(
    rt: &(impl Print + Eprint),
    room: &mut [u8],
    shop: &[u16],
    order: &[u16],
    trace: &[u16],
    tables: &[u16],
    first: Problem,
    before: usize,
) -> Option<usize>
    requires prepared { Prepared shop.now order.now tables.now first × (turn_bytes ≤ length room.old) }
    requires before_le_moment_bytes { before ≤ moment_bytes }
    ensures { Writes before (steps_text shop.now order.now trace.now) result }
{
    let mut problem = first;
    let mut bytes = before;
    for step in Reader::open(trace) {
        let turn = take_turn(room, problem, shop, order, tables, step);
        bytes = write_out(rt, front(room, turn.end), bytes)?;
        match turn.shown.answer {
            Ok(()) => problem = turn.shown.problem,
            Err(_) => return Some(bytes),
        }
    }
    Some(bytes)
}

// The moment before the first step.
fn write_first(rt: &(impl Print + Eprint), room: &mut [u8], first: Problem) -> Option<usize>
    requires { moment_bytes ≤ length room.old }
    ensures few { FewBytes result }
    ensures text { FirstWritten first result }
{
    let end = put_moment(room, 0, 0, first);
    write_out(rt, front(room, end), 0)
}

// The moments of sheets that pass; of a trace that doesn't, the first alone.
fn write_moments(
    rt: &(impl Print + Eprint),
    shop: &[u16],
    order: &[u16],
    trace: &[u16],
) -> Option<usize>
    requires { check_order shop.now order.now ≡ passed }
    ensures { Writes 0 (shown_text shop.now order.now trace.now) result }
{
    let mut room = [0u8; TURN_BYTES];
    let mut tables = [0u16; Tables::WORDS];
    let problem = first::prepared(shop, order, &mut tables);
    let bytes = write_first(rt, &mut room, problem)?;
    match check_trace(shop, order, trace) {
        Ok(()) => write_steps(rt, &mut room, shop, order, trace, &tables, problem, bytes),
        Err(_) => Some(bytes),
    }
}

// The moments of three sheets; of an order that doesn't pass, nothing.
fn display_words(
    rt: &(impl Print + Eprint),
    shop: &[u16],
    order: &[u16],
    trace: &[u16],
) -> Option<usize>
    ensures { Writes 0 (shown_text shop.now order.now trace.now) result }
{
    match check_order(shop, order) {
        Ok(()) => write_moments(rt, shop, order, trace),
        Err(_) => Some(0),
    }
}

// The moments of what three files say. Answers how many bytes went out; none where not all could be written. Kept apart: inlined, its words would
// take stack while the files are read too.
#[inline(never)]
pub fn display(rt: &(impl Print + Eprint), shop: &[u8], order: &[u8], trace: &[u8]) -> Option<usize>
    ensures { Writes 0 (shown_text (shop_words shop.now) (order_words order.now) (trace_words trace.now)) result }
{
    let mut shop_words = ShopWords::new();
    let mut order_words = OrderWords::new();
    let mut trace_words = TraceWords::new();
    shop_words.read(shop);
    order_words.read(order);
    trace_words.read(trace);
    let shop = shop_words.words();
    let order = order_words.words();
    let trace = trace_words.words();
    display_words(rt, shop, order, trace)
}
