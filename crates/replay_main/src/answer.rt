// From the bytes of the three files to the text of the answer. Document 01, "One core of sixty centimetres".
ghost use Rattle.std.specs.Prelude.{◌≡◌, ◌++◌, ◌+◌, ◌*◌, ◌≤◌, length, take};
ghost use Rattle.hgn.specs.Replay as Replay;
ghost use Rattle.replay.specs.Answers.{replayed_of};
ghost use Rattle.sheet_files.specs.Words.{shop_words, order_words, trace_words};
ghost use Rattle.sheet_files.specs.Texts.{number_bytes};
ghost use Rattle.replay_main.specs.Printed.{lines, printed, most_bytes};

use replay::answer::Accepted;
use replay::call::replay;
use sheet_check::check::Trace;
use sheet_files::text;
use sheet_files::text::Text;
use sheet_files::words::{OrderWords, ShopWords, TraceWords, front};
use state::atoms::NO_ATOM;
use step::failure::Failure;

// The most bytes of the text. Behind the heading stands the plan, which has no more actions than a trace has steps.
pub const MOST_BYTES: usize = Text::HEADING_BYTES
    + Text::NUMBER_BYTES * (Trace::MOST_STEPS as usize);

// The replay of what three files say. Kept apart: inlined, its words would take stack while the files are read too.
#[inline(never)]
fn replay_bytes(
    shop: &[u8],
    order: &[u8],
    trace: &[u8],
    plan: &mut [u16],
) -> Result<Accepted, Failure>
    ensures { replayed_of result plan.new ≡ Replay.replay (shop_words shop.now) (order_words order.now) (trace_words trace.now) plan.old }
{
    let mut shop_words = ShopWords::new();
    let mut order_words = OrderWords::new();
    let mut trace_words = TraceWords::new();
    shop_words.read(shop);
    order_words.read(order);
    trace_words.read(trace);
    let shop = shop_words.words();
    let order = order_words.words();
    let trace = trace_words.words();
    replay(shop, order, trace, plan)
}

// A line for each action of the plan, behind the first bytes of the text. Answers how many bytes there are now.
fn put_lines(text: &mut [u8], at: usize, plan: &[u16]) -> usize
    requires { at + number_bytes * length plan.now ≤ length text.old }
    ensures { take result text.new ≡ take at text.old ++ lines plan.now }
{
    let mut end = at;
    for action in plan {
        end = text::put(text, end, u64::from(*action), b'\n');
    }
    end
}

// The text goes into the first bytes of the room; what stands behind it is left free. Answers how many they are.
pub fn write_answer(shop: &[u8], order: &[u8], trace: &[u8], room: &mut [u8]) -> usize
    requires { most_bytes ≤ length room.old }
    ensures { take result room.new ≡ printed shop.now order.now trace.now }
{
    let mut plan = [0u16; Trace::MOST_STEPS as usize];
    match replay_bytes(shop, order, trace, &mut plan) {
        Ok(accepted) => {
            let heading = text::put_heading(
                room,
                0,
                accepted.steps,
                accepted.count,
                accepted.cost,
                NO_ATOM,
            );
            put_lines(room, heading, front(&plan, usize::from(accepted.count)))
        }
        Err(failure) => text::put_heading(
            room,
            failure.number(),
            failure.refusal.place,
            0,
            0,
            failure.atom_word(),
        ),
    }
}
