// A step's questions, answered before anything changes. Document 01, "Questions"; document 02, Req 01.
ghost use Rattle.std.specs.Prelude.{◌≡◌, ◌+◌, ◌≤◌, ◌<◌, leb};
ghost use Rattle.std.specs.Int.{w16};
ghost use Rattle.std.proofs.Common.{Fits};
ghost use Rattle.hgn.specs.Run as Run;
ghost use Rattle.hgn.specs.Run.{Problem};
ghost use Rattle.hgn.specs.Shop.{action_count, method_count};
ghost use Rattle.step.specs.Moves.{Known, known_of};
ghost use Rattle.sheet_index.specs.Tables.{Indexed};
ghost use Rattle.step.specs.Deciding.{ReleaseAnswers, ActionAnswers, Answers, StatusIn, Decides};
ghost use Rattle.hgn.specs.Network.{most_waiting};

use crate::failure::Failure;
use crate::moves::{Move, Step};
use network::waiting::Waiting;
use sheet_check::check::Shop;
use sheet_check::rows::word;
use sheet_check::sizes::ShopSizes;
use sheet_index::index::Span;
use sheet_index::operators;
use sheet_index::rows::Rows;
use sheet_rows::refusal::Question;
use state::literals::LiteralTags;
use state::{literals, parts};

// How many goals wait, and how many may wait after a method.
#[derive(Clone, Copy)]
pub struct Load {
    pub count: u16,
    pub limit: u16,
}

impl Load {
    // So many more may wait.
    fn allows(self, more: u16) -> bool
        requires { Fits w16 (self.count + more) }
        ensures { result ≡ leb (self.count + more) self.limit }
    {
        self.count + more <= self.limit
    }
}

// A release's own question at a goal by its rows: 29 where the goal does not hold, with the first unmet atom of its first alternative.
pub fn ask_release(
    shop: &[u16],
    order: &[u16],
    atoms: &[bool; Shop::MOST_ATOMS as usize],
    goal: Span,
) -> Result<(), Failure>
    ensures { ReleaseAnswers shop.now order.now atoms.now goal result }
{
    match parts::test_goal(atoms, shop, order, goal) {
        Ok(()) => Ok(()),
        Err(atom) => Err(Failure::unmet(Question::GoalUnmet, atom)),
    }
}

// An action's own questions at a goal, both by their rows: 30 where its needs do not hold, with the first unmet atom, 31 where it is not
// relevant.
pub fn ask_action(
    shop: &[u16],
    order: &[u16],
    atoms: &[bool; Shop::MOST_ATOMS as usize],
    rows: Rows,
    goal: Span,
) -> Result<(), Failure>
    ensures { ActionAnswers shop.now order.now atoms.now rows.entry goal result }
{
    if let Err(atom) = literals::test_literals(atoms, rows, LiteralTags::NEEDS) {
        return Err(Failure::unmet(Question::NeedsUnmet, atom));
    }
    if !parts::relevant_to(shop, order, rows, LiteralTags::EFFECTS, goal) {
        return Err(Failure::by(Question::Irrelevant));
    }
    Ok(())
}

// A method's own questions at a goal by its rows: 30 where its needs do not hold, with the first unmet atom, 31 where it is not relevant, 32
// where more goals would wait than may.
pub fn ask_method(
    shop: &[u16],
    order: &[u16],
    tables: &[u16],
    atoms: &[bool; Shop::MOST_ATOMS as usize],
    method: u16,
    goal: Span,
    load: Load,
) -> Result<(), Failure>
    requires indexed { Indexed shop.now order.now tables.now }
    requires method_bound { (method < method_count shop.now) × (load.count ≤ most_waiting) }
    ensures { Answers shop.now order.now atoms.now goal load (Run.use_method method) result }
{
    let rows = operators::method_rows(shop, tables, method);
    let head = Rows::of_shop(shop, rows.from, rows.first);
    if let Err(atom) = literals::test_literals(atoms, head, LiteralTags::NEEDS) {
        return Err(Failure::unmet(Question::NeedsUnmet, atom));
    }
    let nodes = operators::nodes_between(tables, rows.first, rows.end);
    let last = Rows::of_shop(shop, nodes.last, rows.end);
    if !parts::relevant_to(shop, order, last, LiteralTags::WANTED, goal) {
        return Err(Failure::by(Question::Irrelevant));
    }
    if !load.allows(nodes.count) {
        return Err(Failure::by(Question::TooManyWaiting));
    }
    Ok(())
}

// A move's own questions, at a goal with these rows and under this load.
fn ask_move(
    shop: &[u16],
    order: &[u16],
    tables: &[u16],
    atoms: &[bool; Shop::MOST_ATOMS as usize],
    known: Move,
    goal: Span,
    load: Load,
) -> Result<(), Failure>
    requires indexed { Indexed shop.now order.now tables.now }
    requires known { Known (action_count shop.now) (method_count shop.now) known × (load.count ≤ most_waiting) }
    ensures { Answers shop.now order.now atoms.now goal load (known_of known) result }
{
    match known {
        Move::Release => ask_release(shop, order, atoms, goal),
        Move::Act(action) => {
            let rows = operators::action_part(shop, tables, action);
            ask_action(shop, order, atoms, rows, goal)
        }
        Move::Use(method) => ask_method(shop, order, tables, atoms, method, goal, load),
    }
}

// Does a goal wait at the place? 25. Move known? 26. Is this goal free? 28. Then the move's own. 27 is told from 28 afterwards, where
// the step is refused. Answers the move that may be taken.
pub fn decide(
    shop: &[u16],
    order: &[u16],
    tables: &[u16],
    atoms: &[bool; Shop::MOST_ATOMS as usize],
    waiting: Option<Waiting>,
    load: Load,
    step: Step,
) -> Result<Move, Failure>
    requires { Indexed shop.now order.now tables.now × (load.count ≤ most_waiting) × (load.limit ≤ most_waiting) }
    ensures { (P : Problem) → StatusIn shop.now order.now atoms.now load.count waiting P step.place.0
        → Decides load.limit shop.now P step.mv step.place.0 result }
{
    let Some(waiting) = waiting else {
        return Err(Failure::by(Question::NoGoalThere));
    };
    let actions = word(shop, ShopSizes::ACTIONS);
    let methods = word(shop, ShopSizes::METHODS);
    let Some(known) = Move::read(step.mv, actions, methods) else {
        return Err(Failure::by(Question::UnknownMove));
    };
    if !waiting.is_free() {
        return Err(Failure::by(Question::GoalNotFree));
    }
    ask_move(shop, order, tables, atoms, known, waiting.goal.rows, load)?;
    Ok(known)
}
