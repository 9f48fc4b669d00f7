// One step on a record that is handed over. Document 01, "Questions".
ghost use Rattle.std.specs.Prelude.{◌≤◌};
ghost use Rattle.hgn.specs.Network.{most_waiting};
ghost use Rattle.hgn.specs.Run.{strict, stepped};
ghost use Rattle.hgn.specs.Shop.{domain};
ghost use Rattle.sheet_index.specs.Tables.{Indexed};
ghost use Rattle.step.specs.Taking.{Going};
ghost use Rattle.step.specs.Steps.{problem_in, StepAnswers};

use crate::failure::Failure;
use crate::moves::Step;
use crate::problem::Problem;
use crate::taking;

// The questions 25 to 32 in their order, then the move: on copies of the atoms and of the goals, which are answered as the next record.
// At most `limit` goals may wait after a method.
pub fn step(
    shop: &[u16],
    order: &[u16],
    tables: &[u16],
    problem: Problem,
    step: Step,
    limit: u16,
) -> Result<Problem, Failure>
    requires indexed { Indexed shop.now order.now tables.now × (limit ≤ most_waiting) }
    requires going { Going shop.now order.now step.number problem.atoms problem.waiting }
    ensures { StepAnswers shop.now order.now
        (stepped (strict limit (domain shop.now)) step.number (problem_in shop.now order.now problem)
        (record { move = step.mv; place = step.place.0 })) result }
{
    let Problem {
        mut atoms,
        mut waiting,
    } = problem;
    taking::take(shop, order, tables, &mut atoms, &mut waiting, step, limit)?;
    Ok(Problem { atoms, waiting })
}
