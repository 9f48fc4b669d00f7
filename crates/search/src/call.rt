// The search's call: its questions, and the trace written. Document 01, "Questions" 41 to 43.
ghost use Rattle.std.specs.Prelude.{◌≡◌, ◌≤◌, ◌+◌, ◌*◌, length};
ghost use Rattle.hgn.specs.Questions.{passed};
ghost use Rattle.hgn.specs.Order.{check_order};
ghost use Rattle.hgn.specs.Search as Search;
ghost use Rattle.hgn.specs.Search.{most_depth};
ghost use Rattle.hgn.specs.Trace.{trace_words};
ghost use Rattle.hgn.specs.Lent.{overwritten};
ghost use Rattle.search.specs.Founds.{searched_of, steps_of};

use crate::found::Steps;
use crate::shortest;
use crate::shortest::Shortest;
use sheet_check::check;
use sheet_rows::refusal::{Question, Refusal};

// L, then L moves, then L places, into the first words of the room.
fn write_trace(room: &mut [u16], found: Shortest)
    requires { (1 + (found.length + found.length) ≤ length room.old) × (found.length ≤ most_depth) }
    ensures written { room.new ≡ overwritten (trace_words (steps_of found)) room.old }
    ensures whole { length (steps_of found) ≡ found.length }
{
    let count = found.length as usize;
    room[0] = found.length;
    let steps = &found.steps.listed[..count];
    for (i, step) in steps.iter().enumerate() {
        room[1 + i] = step.mv;
        room[1 + count + i] = step.place.0;
    }
}

// Question 43, of sheets that passed, with room enough. It is compiled apart, so that a call that is refused by another question takes none of
// the stack of a search.
#[inline(never)]
fn find(shop: &[u16], order: &[u16], depth: u16, room: &mut [u16]) -> Result<u16, Refusal>
    requires passes { (check_order shop.now order.now ≡ passed) × (depth ≤ most_depth) }
    requires fits { 1 + 2 * depth ≤ length room.old }
    ensures { searched_of result room.new ≡ Search.search shop.now order.now depth room.old }
{
    let Some(found) = shortest::search_checked(shop, order, depth) else {
        return Err(Refusal::by(Question::NoTrace));
    };
    write_trace(room, found);
    Ok(found.length)
}

// Questions 1 to 9 and 11 to 18, then 41 to 43. Answers the length L of the trace found, which stands in the first 1 + 2L words of the room.
pub fn search(shop: &[u16], order: &[u16], depth: u32, room: &mut [u16]) -> Result<u16, Refusal>
    ensures { searched_of result room.new ≡ Search.search shop.now order.now depth room.old }
{
    check::check_order(shop, order)?;
    if Steps::MOST < depth {
        return Err(Refusal::by(Question::DepthTooLarge));
    }
    if room.len() < 1 + 2 * depth as usize {
        return Err(Refusal::by(Question::SearchRoom));
    }
    find(shop, order, depth as u16, room)
}
