// What a search answers and what it leaves in the room: `: NUMBER PLACE; length L; moves WORDS; places WORDS; rest kept`.
// Refused, `: NUMBER PLACE; rest kept`, and the rest is the whole room.
ghost use Rattle.std.specs.Prelude.{◌≡◌, get_or};
ghost use Rattle.hgn.specs.Search as Search;

use crate::{line, room};
use search::call::search;
use sheet_check::check::Trace;
use sheet_check::rows::word;
use sheet_check::sizes::TraceSizes;
use sheet_rows::refusal::Refusal;

// The trace of a length in a room's first words, and the words behind it.
fn write_trace(rt: &impl Print, room: &[u16], length: u16) {
    let count = usize::from(length);
    line::text(rt, b"; length");
    let sizes = TraceSizes::of(room);
    line::number(rt, u64::from(sizes.steps));
    line::text(rt, b"; moves");
    room::write_part(rt, room, Trace::SIZES, count);
    line::text(rt, b"; places");
    room::write_part(rt, room, Trace::SIZES + count, count);
    room::write_rest(rt, room, Trace::SIZES + 2 * count);
}

fn write_answer(rt: &impl Print, answer: Result<u16, Refusal>, room: &[u16]) {
    line::text(rt, b":");
    match answer {
        Ok(length) => {
            line::number(rt, 0);
            line::number(rt, u64::from(length));
            write_trace(rt, room, length);
        }
        Err(refusal) => {
            line::refusal(rt, refusal);
            room::write_rest(rt, room, 0);
        }
    }
    line::text(rt, b"\n");
}

// The answer is written, and the room is left as the search leaves it. The first of the words is D.
pub fn write(rt: &impl Print, shop: &[u16], order: &[u16], words: &[u16], room: &mut [u16])
    ensures { room.new ≡ (Search.search shop.now order.now (get_or words.now 0 0) room.old).room }
{
    let answer = search(shop, order, u32::from(word(words, 0)), room);
    write_answer(rt, answer, room);
}
