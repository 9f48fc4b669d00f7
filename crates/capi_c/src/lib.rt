// The C library: the six calls of `capi`, exported under their names with the same clauses. `include/liropuva.h` declares them.
#![tactic(auto)]

ghost use Rattle.std.specs.Prelude.{◌≡◌};
ghost use Rattle.hgn.specs.Shop.{check_shop};
ghost use Rattle.hgn.specs.Order.{check_order};
ghost use Rattle.hgn.specs.Trace.{check_trace};
ghost use Rattle.hgn.specs.Replay as Replay;
ghost use Rattle.hgn.specs.Search as Search;
ghost use Rattle.hgn.specs.JoinSheet.{write_join};
ghost use Rattle.hgn.specs.Questions.{answered};
ghost use Rattle.capi.specs.Words.{refusal_words, ReplayLeft, LentLeft};

use sheet_check::check::Shop;

// Questions 1 to 9.
#[unsafe(no_mangle)]
pub extern "C" fn hgn_check_shop(shop: &[u16], answer: &mut [u32; 2])
    ensures { answer.new ≡ refusal_words (answered (check_shop shop.now)) }
{
    capi::hgn_check_shop(shop, answer);
}

// Questions 1 to 9, then 11 to 18.
#[unsafe(no_mangle)]
pub extern "C" fn hgn_check_order(shop: &[u16], order: &[u16], answer: &mut [u32; 2])
    ensures { answer.new ≡ refusal_words (answered (check_order shop.now order.now)) }
{
    capi::hgn_check_order(shop, order, answer);
}

// Questions 1 to 9 and 11 to 18, then 21 to 23.
#[unsafe(no_mangle)]
pub extern "C" fn hgn_check_trace(shop: &[u16], order: &[u16], trace: &[u16], answer: &mut [u32; 2])
    ensures { answer.new ≡ refusal_words (answered (check_trace shop.now order.now trace.now)) }
{
    capi::hgn_check_trace(shop, order, trace, answer);
}

// The sheets' questions, then 24 to 33. Accepted, the plan stands in the first words of its room. The header calls it `hgn_replay`, and says
// when a symbol gets a number.
#[unsafe(no_mangle)]
pub extern "C" fn hgn_replay_2(
    shop: &[u16],
    order: &[u16],
    trace: &[u16],
    plan: &mut [u16],
    answer: &mut [u32; 5],
    atoms: &mut [u8; Shop::MOST_ATOMS as usize],
)
    ensures { ReplayLeft (Replay.replay shop.now order.now trace.now plan.old) plan.new answer.new atoms.new }
{
    capi::hgn_replay_2(shop, order, trace, plan, answer, atoms);
}

// Questions 1 to 9 and 11 to 18, then 41 to 43. Found, the trace stands in the first 1 + 2L words of the room. The header calls it
// `hgn_search`, and says when a symbol gets a number.
#[unsafe(no_mangle)]
pub extern "C" fn hgn_search_2(
    shop: &[u16],
    order: &[u16],
    depth: u32,
    room: &mut [u16],
    answer: &mut [u32; 2],
)
    ensures { LentLeft (Search.search shop.now order.now depth room.old) room.new answer.new }
{
    capi::hgn_search_2(shop, order, depth, room, answer);
}

// Questions 1 to 9, 11 to 18 of the first order, 11 to 18 of the second, then 81 to 83. Written, the joined sheet stands in the first words
// of the room.
#[unsafe(no_mangle)]
pub extern "C" fn hgn_join(
    shop: &[u16],
    first: &[u16],
    second: &[u16],
    room: &mut [u16],
    answer: &mut [u32; 2],
)
    ensures { LentLeft (write_join shop.now first.now second.now room.old) room.new answer.new }
{
    capi::hgn_join(shop, first, second, room, answer);
}
