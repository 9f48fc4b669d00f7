// The run of a trace's steps. Document 01, "How a derivation runs".
ghost use Rattle.std.specs.Prelude.{◌≡◌, List, ℕ, ◌≤◌, ◌+◌, ◌*◌, length};
ghost use Rattle.hgn.specs.State.{State};
ghost use Rattle.hgn.specs.Shop.{action_count, method_count};
ghost use Rattle.hgn.specs.Tag.{most_cost};
ghost use Rattle.hgn.specs.Trace.{most_steps, step_count};
ghost use Rattle.sheet_index.specs.Tables.{Indexed};
ghost use Rattle.step.specs.Moves.{Known};
ghost use Rattle.replay.specs.Answers.{answer_of, with_state, run_answer, end_answer};
ghost use Rattle.step.specs.Taking.{problem_with};
ghost use Rattle.replay.specs.Running.{FirstGoals, TotalWith};

use crate::answer::{Accepted, Counts};
use network::goals::Goals;
use network::waiting::Place;
use sheet_check::check::{Shop, Trace};
use sheet_check::rows::word;
use sheet_check::sizes::TraceSizes;
use sheet_index::operators;
use sheet_rows::refusal::Question;
use step::failure::Failure;
use step::moves::{Move, Step};
use step::taking;

// How many actions were taken, and the sum of their costs.
#[derive(Clone, Copy)]
pub struct Totals {
    pub count: u16,
    pub cost: u32,
}

impl Totals {
    // The totals after a move: an action adds one and its cost, a release and a method nothing.
    fn with(self, shop: &[u16], tables: &[u16], known: Move) -> Totals
        requires by_index { ((order : List ℕ) × Indexed shop.now order tables.now) × Known (action_count shop.now) (method_count shop.now) known }
        requires count_le_most_steps { (self.count ≤ most_steps) × (self.cost ≤ most_cost * most_steps) }
        ensures { TotalWith shop.now known self result }
    {
        match known {
            Move::Act(action) => {
                let price = operators::action_cost(shop, tables, action);
                Totals {
                    count: self.count + 1,
                    cost: self.cost + u32::from(price),
                }
            }
            Move::Release | Move::Use(_) => self,
        }
    }
}

// The steps of a trace from a state on, with the order's goals waiting, taken where both stand: the state left there is the last one, if the
// trace is accepted. What else they leave there is left free.
pub fn take_all(
    shop: &[u16],
    order: &[u16],
    trace: &[u16],
    tables: &[u16],
    atoms: &mut [bool; Shop::MOST_ATOMS as usize],
    waiting: &mut Goals,
) -> Result<Counts, Failure>
    requires indexed { Indexed shop.now order.now tables.now × FirstGoals shop.now order.now waiting.old }
    requires trace_in_bounds { (1 + (step_count trace.now + step_count trace.now) ≤ length trace.now) × (step_count trace.now ≤ most_steps) }
    ensures { answer_of (with_state atoms.new result) ≡ run_answer shop.now trace.now (problem_with shop.now order.now atoms.old waiting.old) }
{
    let sizes = TraceSizes::of(trace);
    let mut totals = Totals { count: 0, cost: 0 };
    for number in 0..sizes.steps {
        let at = Trace::SIZES + number as usize;
        let step = Step {
            number,
            mv: word(trace, at),
            place: Place(word(trace, at + sizes.steps as usize)),
        };
        match taking::take(shop, order, tables, atoms, waiting, step, Goals::MOST) {
            Ok(known) => totals = totals.with(shop, tables, known),
            Err(failure) => return Err(failure.at(number)),
        }
    }
    ended(waiting.len(), sizes.steps, totals)
}

// The same, with the last state in the answer.
pub fn run(
    shop: &[u16],
    order: &[u16],
    trace: &[u16],
    tables: &[u16],
    atoms: &mut [bool; Shop::MOST_ATOMS as usize],
    waiting: &mut Goals,
) -> Result<Accepted, Failure>
    requires indexed { Indexed shop.now order.now tables.now × FirstGoals shop.now order.now waiting.old }
    requires trace_in_bounds { (1 + (step_count trace.now + step_count trace.now) ≤ length trace.now) × (step_count trace.now ≤ most_steps) }
    ensures { answer_of result ≡ run_answer shop.now trace.now (problem_with shop.now order.now atoms.old waiting.old) }
{
    let counts = take_all(shop, order, trace, tables, atoms, waiting)?;
    Ok(Accepted::of(counts, atoms))
}

// After the last step: nothing waiting? 33.
fn ended(waiting: u16, steps: u16, totals: Totals) -> Result<Counts, Failure>
    ensures { (s : State) → answer_of (with_state s result) ≡ end_answer steps s waiting totals.count totals.cost }
{
    if waiting != 0 {
        return Err(Failure::by(Question::GoalsLeft).at(steps));
    }
    Ok(Counts {
        steps,
        count: totals.count,
        cost: totals.cost,
    })
}
