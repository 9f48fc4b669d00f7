// The six public calls as a caller of C has them: plain names, and each answer written where the caller lends room for it. Document 01,
// "Questions". `include/liropuva.h` declares them; the crate `capi_c` exports them under these names.
#![tactic(auto)]

ghost use Rattle.std.specs.Prelude.{◌≡◌};
ghost use Rattle.hgn.specs.Shop.{check_shop};
ghost use Rattle.hgn.specs.Order.{check_order};
ghost use Rattle.hgn.specs.Trace.{check_trace};
ghost use Rattle.hgn.specs.Replay as Replay;
ghost use Rattle.hgn.specs.Search as Search;
ghost use Rattle.hgn.specs.JoinSheet.{write_join};
ghost use Rattle.hgn.specs.Questions.{answered};
ghost use Rattle.sheet_rows.specs.Refusals.{answer_of, found_of};
ghost use Rattle.capi.specs.Words.{refusal_words, state_bytes, ReplayLeft, LentLeft};

use replay::call::replay_into;
use search::call::search;
use sheet_check::check;
use sheet_check::check::Shop;
use sheet_join::call::join;
use sheet_rows::refusal::Refusal;
use state::atoms::NO_ATOM;

// The words of an answer with a place: 0 and this place, or the number and the place of the refusal.
fn found_words(answer: Result<u16, Refusal>) -> [u32; 2]
    ensures { result ≡ refusal_words (found_of answer) }
{
    match answer {
        Ok(place) => [0, u32::from(place)],
        Err(refusal) => [u32::from(refusal.number()), u32::from(refusal.place)],
    }
}

// The same of an answer without one: 0 and 0, or those of the refusal.
fn passed_words(answer: Result<(), Refusal>) -> [u32; 2]
    ensures { result ≡ refusal_words (answer_of answer) }
{
    found_words(answer.and(Ok(0)))
}

// A state's atoms as bytes, 1 for an atom that is in and 0 for one that is not, written where the caller reads them.
fn bytes_of(atoms: &[bool; Shop::MOST_ATOMS as usize], bytes: &mut [u8; Shop::MOST_ATOMS as usize])
    ensures { bytes.new ≡ state_bytes atoms.now }
{
    // By the atom's number: an array's own `map` makes an Option of each atom first, some 5,000 instructions more.
    for i in 0..Shop::MOST_ATOMS as usize {
        bytes[i] = u8::from(atoms[i]);
    }
}

// Questions 1 to 9.
pub fn hgn_check_shop(shop: &[u16], answer: &mut [u32; 2])
    ensures { answer.new ≡ refusal_words (answered (check_shop shop.now)) }
{
    *answer = passed_words(check::check_shop(shop));
}

// Questions 1 to 9, then 11 to 18.
pub fn hgn_check_order(shop: &[u16], order: &[u16], answer: &mut [u32; 2])
    ensures { answer.new ≡ refusal_words (answered (check_order shop.now order.now)) }
{
    *answer = passed_words(check::check_order(shop, order));
}

// Questions 1 to 9 and 11 to 18, then 21 to 23.
pub fn hgn_check_trace(shop: &[u16], order: &[u16], trace: &[u16], answer: &mut [u32; 2])
    ensures { answer.new ≡ refusal_words (answered (check_trace shop.now order.now trace.now)) }
{
    *answer = passed_words(check::check_trace(shop, order, trace));
}

// The sheets' questions, then 24 to 33. Accepted, the plan stands in the first words of its room. The header calls it `hgn_replay`, and says
// when a symbol gets a number.
pub fn hgn_replay_2(
    shop: &[u16],
    order: &[u16],
    trace: &[u16],
    plan: &mut [u16],
    answer: &mut [u32; 5],
    atoms: &mut [u8; Shop::MOST_ATOMS as usize],
)
    ensures { ReplayLeft (Replay.replay shop.now order.now trace.now plan.old) plan.new answer.new atoms.new }
{
    let mut state = [false; Shop::MOST_ATOMS as usize];
    *answer = match replay_into(shop, order, trace, plan, &mut state) {
        Ok(counts) => [
            0,
            u32::from(counts.steps),
            u32::from(counts.count),
            counts.cost,
            u32::from(NO_ATOM),
        ],
        Err(failure) => [
            u32::from(failure.number()),
            u32::from(failure.refusal.place),
            0, // the plan's length
            0, // its cost
            u32::from(failure.atom_word()),
        ],
    };
    bytes_of(&state, atoms);
}

// Questions 1 to 9 and 11 to 18, then 41 to 43. Found, the trace stands in the first 1 + 2L words of the room. The header calls it
// `hgn_search`, and says when a symbol gets a number.
pub fn hgn_search_2(
    shop: &[u16],
    order: &[u16],
    depth: u32,
    room: &mut [u16],
    answer: &mut [u32; 2],
)
    ensures { LentLeft (Search.search shop.now order.now depth room.old) room.new answer.new }
{
    *answer = found_words(search(shop, order, depth, room));
}

// Questions 1 to 9, 11 to 18 of the first order, 11 to 18 of the second, then 81 to 83. Written, the joined sheet stands in the first words
// of the room.
pub fn hgn_join(
    shop: &[u16],
    first: &[u16],
    second: &[u16],
    room: &mut [u16],
    answer: &mut [u32; 2],
)
    ensures { LentLeft (write_join shop.now first.now second.now room.old) room.new answer.new }
{
    *answer = passed_words(join(shop, first, second, room));
}
