// The text of an accepted trace, made step by step. Document 02, Req 03.
ghost use Rattle.std.specs.Prelude.{◌≤◌, length};
ghost use Rattle.sheet_index.specs.Tables.{Indexed};
ghost use Rattle.listing_main.specs.Pieces.{piece_bytes};
ghost use Rattle.listing_main.specs.Turns.{Spaced, Turning, Turned, Beginning, Through};

use crate::piece::{PIECE_BYTES, put_piece};
use listing::lines::take_step;
use sheet_files::words::front;
use sheet_files::written;
use step::moves::Step;
use step::problem::Problem;
use trace_reader::reader::Reader;

// A step of the trace, and how many bytes of text the room holds where it is to be taken.
#[derive(Clone, Copy)]
pub struct Reached {
    pub step: Step,
    pub end: usize,
}

// A text goes to standard output. Answers whether all of it did; where not, standard error says so.
pub fn write_out(rt: &(impl Print + Eprint), text: &[u8]) -> bool {
    written::print(rt, b"listing", b"the listing", text)
}

// Where in the room a largest piece fits: behind the bytes that the room holds, or, where it would not fit there, at the room's start, once
// they are written out. None where they could not be.
fn make_space(rt: &(impl Print + Eprint), room: &[u8], end: usize) -> Option<usize>
    requires { (end ≤ length room.now) × (piece_bytes ≤ length room.now) }
    ensures { Spaced (length room.now) end result }
{
    if PIECE_BYTES <= room.len() - end {
        Some(end)
    } else if write_out(rt, front(room, end)) {
        Some(0)
    } else {
        None
    }
}

// A step is taken, and its piece goes into the room, behind the text that it holds. Answers how many bytes of text it holds then; none where what
// it held could not be written out, and then the step is not taken.
pub fn turn(
    rt: &(impl Print + Eprint),
    shop: &[u16],
    order: &[u16],
    tables: &[u16],
    problem: &mut Problem,
    room: &mut [u8],
    at: Reached,
) -> Option<usize>
    requires { Indexed shop.now order.now tables.now × Turning shop.now order.now at problem.old room.old }
    ensures { Turned shop.now order.now at problem.old room.old problem.new room.new result }
{
    let space = make_space(rt, room, at.end)?;
    let told = take_step(
        shop,
        order,
        tables,
        &mut problem.atoms,
        &mut problem.waiting,
        at.step,
    );
    Some(put_piece(room, space, told))
}

// The steps of a trace from the first to the last, from a record on, each by a turn; at the end what the room holds is written out. Answers whether
// the whole text was written.
pub fn write_steps(
    rt: &(impl Print + Eprint),
    shop: &[u16],
    order: &[u16],
    trace: &[u16],
    tables: &[u16],
    problem: &mut Problem,
    room: &mut [u8],
) -> bool
    requires { Indexed shop.now order.now tables.now × Beginning shop.now order.now trace.now problem.old.atoms problem.old.waiting room.old }
    ensures { Through shop.now order.now trace.now problem.old.atoms problem.old.waiting result }
{
    let mut end = 0;
    for step in Reader::open(trace) {
        let at = Reached { step, end };
        let Some(next) = turn(rt, shop, order, tables, problem, room, at) else {
            return false;
        };
        end = next;
    }
    write_out(rt, front(room, end))
}
