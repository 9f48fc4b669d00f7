// One step of a run, taken where state and waiting goals stand. Document 01, "How a derivation runs".
ghost use Rattle.std.specs.Prelude.{◌≡◌, List, ℕ, ◌≤◌};
ghost use Rattle.hgn.specs.Network.{most_waiting};
ghost use Rattle.step.specs.Failures.{failure_of};
ghost use Rattle.sheet_index.specs.Tables.{Indexed};
ghost use Rattle.step.specs.Deciding.{with_question27};
ghost use Rattle.network.specs.Goals.{list_in};
ghost use Rattle.step.specs.Taking.{ValidGoals, Going, MayApply, Applied, Took};

use crate::failure::Failure;
use crate::moves::{Choice, Move, Step};
use crate::questions::Load;
use crate::{problem, questions};
use network::goals::Goals;
use sheet_check::check::Shop;
use sheet_rows::refusal::Question;

// What is told of a step: 27 for 28 where no waiting goal is free.
fn with_question_27(waiting: &Goals, failure: Failure) -> Failure
    requires { (shop order : List ℕ) × ValidGoals shop order waiting.now }
    ensures { (shop order : List ℕ) → ValidGoals shop order waiting.now → failure_of result ≡ with_question27 (list_in shop order waiting.now) (failure_of failure) }
{
    if failure.refusal.question == Question::GoalNotFree && !waiting.any_free() {
        return Failure::by(Question::NothingFree);
    }
    failure
}

// A move is applied at the free goal of a place, where every question was answered yes.
pub fn apply(
    shop: &[u16],
    order: &[u16],
    tables: &[u16],
    atoms: &mut [bool; Shop::MOST_ATOMS as usize],
    waiting: &mut Goals,
    number: u16,
    choice: Choice,
)
    requires indexed { Indexed shop.now order.now tables.now × Going shop.now order.now number atoms.old waiting.old }
    requires may_apply { MayApply shop.now order.now choice waiting.old }
    ensures { Applied shop.now order.now number choice atoms.old waiting.old atoms.new waiting.new }
{
    let place = choice.place;
    match choice.mv {
        Move::Release => waiting.leave(shop, order, place),
        Move::Act(action) => problem::act(atoms, shop, order, tables, action),
        Move::Use(method) => waiting.decompose(shop, order, tables, number, method, place),
    }
}

// The questions 25 to 32 in their order, then the move, which is answered. At most `limit` goals may wait after a method.
pub fn take(
    shop: &[u16],
    order: &[u16],
    tables: &[u16],
    atoms: &mut [bool; Shop::MOST_ATOMS as usize],
    waiting: &mut Goals,
    step: Step,
    limit: u16,
) -> Result<Move, Failure>
    requires indexed { Indexed shop.now order.now tables.now × Going shop.now order.now step.number atoms.old waiting.old }
    requires limit_le_most_waiting { limit ≤ most_waiting }
    ensures { Took limit shop.now order.now step.number (record { move = step.mv; place = step.place.0 })
        atoms.old waiting.old result atoms.new waiting.new }
{
    let goal = waiting.get(step.place);
    let count = waiting.len();
    let load = Load { count, limit };
    match questions::decide(shop, order, tables, atoms, goal, load, step) {
        Ok(known) => {
            let choice = Choice {
                mv: known,
                place: step.place,
            };
            apply(shop, order, tables, atoms, waiting, step.number, choice);
            Ok(known)
        }
        Err(failure) => Err(with_question_27(waiting, failure)),
    }
}
