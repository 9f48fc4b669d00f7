// The lines of a step, told as it is taken. Document 02, Req 03.
ghost use Rattle.std.specs.Prelude.{◌<◌};
ghost use Rattle.sheet_index.specs.Tables.{Indexed};
ghost use Rattle.step.specs.Taking.{Going};
ghost use Rattle.listing.specs.Lines.{TellsMove, StepTold};

use crate::line::{Line, line_at};
use network::goals::Goals;
use sheet_check::check::Shop;
use step::moves::{Move, Step};
use step::taking;

// What a step gives to the listing, by the goals that wait before it: the line of the goal that it releases, or nothing.
fn told_at(waiting: &Goals, step: Step) -> Option<Line>
    ensures { TellsMove waiting.now step.number (record { move = step.mv; place = step.place.0 }) result }
{
    if step.mv == Move::RELEASE && step.place.0 < waiting.len() {
        Some(line_at(waiting, step.place, step.number))
    } else {
        None
    }
}

// A step, taken where state and waiting goals stand, and what it gives to the listing, which is told before the goal leaves: the line of the
// goal that it releases, or nothing. A step that is refused gives nothing.
pub fn take_step(
    shop: &[u16],
    order: &[u16],
    tables: &[u16],
    atoms: &mut [bool; Shop::MOST_ATOMS as usize],
    waiting: &mut Goals,
    step: Step,
) -> Option<Line>
    requires { Indexed shop.now order.now tables.now × Going shop.now order.now step.number atoms.old waiting.old }
    ensures { StepTold shop.now order.now step.number (record { move = step.mv; place = step.place.0 })
        atoms.old waiting.old result atoms.new waiting.new }
{
    let told = told_at(waiting, step);
    match taking::take(shop, order, tables, atoms, waiting, step, Goals::MOST) {
        Ok(_) => told,
        Err(_) => None,
    }
}
