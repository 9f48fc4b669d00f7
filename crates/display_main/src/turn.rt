// A step of the trace on the display, and its text: a line `MOVE PLACE ANSWER ATOM`, the step's move and place, 0 or the number of the question that
// refuses it, and the atom that is not as wanted, 256 for none; then, of a step that is taken, the moment after it. Document 01, "How a derivation
// runs"; document 02, Req 01.
ghost use Rattle.std.specs.Prelude.{◌≡◌, ◌+◌, ◌<◌, ◌≤◌, length, take};
ghost use Rattle.sheet_index.specs.Tables.{Indexed};
ghost use Rattle.step.specs.Failures.{told_of};
ghost use Rattle.step.specs.Taking.{Going};
ghost use Rattle.display.specs.Forward.{Forward, stepped_at};
ghost use Rattle.display_main.specs.Moments.{step_text, turn_text, four_bytes, turn_bytes};
ghost use Rattle.display_main.specs.Puts.{TurnPut};

use crate::line::{FOUR_BYTES, put_numbers};
use crate::moment::{MOMENT_BYTES, put_moment};
use display::forward;
use state::atoms;
use step::failure::Failure;
use step::moves::Step;
use step::problem::{Problem, Stepped};

// The most bytes of a turn: the step's line and a moment.
pub const TURN_BYTES: usize = FOUR_BYTES + MOMENT_BYTES;

// A step that was shown, and how many bytes of a room its text takes.
#[derive(Clone, Copy)]
pub struct Turn {
    pub shown: Stepped,
    pub end: usize,
}

// The line of a step that was shown goes into the first bytes of the text. Answers how many they are.
fn put_step(text: &mut [u8], step: Step, answer: Result<(), Failure>) -> usize
    requires { four_bytes ≤ length text.old }
    ensures few { result ≤ four_bytes }
    ensures text { take result text.new ≡ step_text (record { move = step.mv; place = step.place.0 }) (told_of answer).refusal.number (told_of answer).atom }
{
    let (number, atom) = match answer {
        Ok(()) => (0, atoms::NO_ATOM),
        Err(failure) => (failure.number(), failure.atom_word()),
    };
    put_numbers(text, 0, &[step.mv, step.place.0, number, atom])
}

// The text of a step that was shown goes into the first bytes of the text. Answers how many they are.
fn put_turn(text: &mut [u8], step: Step, shown: Stepped) -> usize
    requires turn_bytes_in_bounds { turn_bytes ≤ length text.old }
    requires within { step.number < 65535 }
    ensures few { result ≤ turn_bytes }
    ensures text { TurnPut step.number (record { move = step.mv; place = step.place.0 }) shown (take result text.new) }
{
    let end = put_step(text, step, shown.answer);
    match shown.answer {
        Ok(()) => put_moment(text, end, step.number + 1, shown.problem),
        Err(_) => end,
    }
}

// The step is shown from a record, and its text goes into the first bytes of the room.
pub fn take_turn(
    room: &mut [u8],
    problem: Problem,
    shop: &[u16],
    order: &[u16],
    tables: &[u16],
    step: Step,
) -> Turn
    requires indexed { Indexed shop.now order.now tables.now × (turn_bytes ≤ length room.old) }
    requires going { Going shop.now order.now step.number problem.atoms problem.waiting × (step.number < 65535) }
    ensures few { result.end ≤ turn_bytes }
    ensures shown { Forward shop.now order.now step.number (record { move = step.mv; place = step.place.0 }) problem result.shown.answer result.shown.problem }
    ensures text { take result.end room.new ≡ turn_text step.number (record { move = step.mv; place = step.place.0 })
        (stepped_at shop.now order.now step.number (record { move = step.mv; place = step.place.0 }) problem) }
{
    let shown = forward::show_step(problem, shop, order, tables, step);
    let end = put_turn(room, step, shown);
    Turn { shown, end }
}
