// The display's record, moved forward by one step where it is held. Document 01, "How a derivation runs": "a stepping display moves one
// record of atoms and waiting goals forward where it is held ... A refused step gives its number and leaves the record unchanged."
ghost use Rattle.std.specs.Prelude.{◌<◌};
ghost use Rattle.sheet_index.specs.Tables.{Indexed};
ghost use Rattle.step.specs.Taking.{Going};
ghost use Rattle.display.specs.Forward.{Forward};

use network::goals::Goals;
use step::failure::Failure;
use step::moves::Step;
use step::problem::{Problem, Stepped};
use step::taking;

// The step at its number in the trace. A step that is refused answers what the first question that fails tells, with its atom.
pub fn step_forward(
    bench: &mut Problem,
    shop: &[u16],
    order: &[u16],
    tables: &[u16],
    step: Step,
) -> Result<(), Failure>
    requires indexed { Indexed shop.now order.now tables.now }
    requires going { Going shop.now order.now step.number bench.old.atoms bench.old.waiting }
    ensures { Forward shop.now order.now step.number (record { move = step.mv; place = step.place.0 }) bench.old result bench.new }
{
    taking::take(
        shop,
        order,
        tables,
        &mut bench.atoms,
        &mut bench.waiting,
        step,
        Goals::MOST,
    )?;
    Ok(())
}

// A step forward from a record that is handed over, for callers that hold none: what the step tells, with the record that is left.
pub fn show_step(
    mut problem: Problem,
    shop: &[u16],
    order: &[u16],
    tables: &[u16],
    step: Step,
) -> Stepped
    requires indexed { Indexed shop.now order.now tables.now }
    requires going { Going shop.now order.now step.number problem.atoms problem.waiting }
    ensures { Forward shop.now order.now step.number (record { move = step.mv; place = step.place.0 }) problem result.answer result.problem }
{
    let answer = step_forward(&mut problem, shop, order, tables, step);
    Stepped { answer, problem }
}
