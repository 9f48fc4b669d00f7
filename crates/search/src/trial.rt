// The tests of a step of the search that need no more than the state and the goals before it.
ghost use Rattle.std.specs.Prelude.{◌≡◌, true, cond, not, ◌<◌, ◌≤◌, ltb};
ghost use Rattle.hgn.specs.Network.{most_waiting, free, goal_at};
ghost use Rattle.hgn.specs.Shop.{action_count, method_count};
ghost use Rattle.hgn.specs.Search.{most_depth};
ghost use Rattle.sheet_index.specs.Tables.{Indexed};
ghost use Rattle.network.specs.Goals.{count_in};
ghost use Rattle.step.specs.Moves.{Known, known_of};
ghost use Rattle.step.specs.Deciding.{Answers};
ghost use Rattle.step.specs.Taking.{ValidGoals};
ghost use Rattle.search_pruning.specs.Tests.{crowded, step_of};
ghost use Rattle.search.specs.Trials.{problem_of, problem_at, MayTake, Opens, Suffices};

use crate::explore::Node;
use crate::found::Exhausted;
use crate::lent::{Given, Moment};
use network::goals::Goals;
use search_bound::least;
use search_pruning::rules;
use sheet_check::check::Shop;
use sheet_index::index::Span;
use sheet_index::operators;
use step::failure::Failure;
use step::moves::{Choice, Move};
use step::questions;
use step::questions::Load;

// A move's own questions, at a goal with these rows and under this load. A replay's step asks them by a function of the same name and contract
// in `step::questions`: a function that both call was compiled into neither, and replays were slower with it.
fn ask_move(
    shop: &[u16],
    order: &[u16],
    tables: &[u16],
    atoms: &[bool; Shop::MOST_ATOMS as usize],
    known: Move,
    goal: Span,
    load: Load,
) -> Result<(), Failure>
    requires indexed { Indexed shop.now order.now tables.now }
    requires known { Known (action_count shop.now) (method_count shop.now) known × (load.count ≤ most_waiting) }
    ensures { Answers shop.now order.now atoms.now goal load (known_of known) result }
{
    match known {
        Move::Release => questions::ask_release(shop, order, atoms, goal),
        Move::Act(action) => {
            let rows = operators::action_part(shop, tables, action);
            questions::ask_action(shop, order, atoms, rows, goal)
        }
        Move::Use(method) => questions::ask_method(shop, order, tables, atoms, method, goal, load),
    }
}

// No question of the move's own is answered no at a free goal, and it is no action that leaves the state as it is.
fn may_take(shop: &[u16], order: &[u16], tables: &[u16], here: Moment<'_>, choice: Choice) -> bool
    requires indexed { Indexed shop.now order.now tables.now }
    requires inside { (choice.place.0 < count_in here.goals.now) × Known (action_count shop.now) (method_count shop.now) choice.mv }
    requires place_value { free (problem_of shop.now order.now here).waiting (goal_at (problem_of shop.now order.now here).waiting choice.place.0) ≡ true }
    ensures { MayTake shop.now (problem_of shop.now order.now here.entry) choice result }
{
    let load = Load {
        count: here.goals.len(),
        limit: Goals::MOST,
    };
    let goal = here.goals.entry_at(choice.place);
    ask_move(shop, order, tables, here.atoms, choice.mv, goal.rows, load).is_ok()
        && !rules::has_no_effect(shop, order, tables, here.atoms, choice.mv)
}

// A step at a free goal is open: it may be taken, and however many steps are left no reason leaves it out. The last step was taken at
// the moment `before`.
pub fn is_open(
    shop: &[u16],
    order: &[u16],
    tables: &[u16],
    here: Moment<'_>,
    before: Moment<'_>,
    last: Choice,
    choice: Choice,
) -> bool
    requires indexed { Indexed shop.now order.now tables.now }
    requires valid_goals { ValidGoals shop.now order.now here.goals.now × (choice.place.0 < count_in here.goals.now) }
    requires valid_before { ValidGoals shop.now order.now before.goals.now × (last.place.0 < count_in before.goals.now) }
    requires known { Known (action_count shop.now) (method_count shop.now) last.mv × Known (action_count shop.now) (method_count shop.now) choice.mv }
    requires place_value { free (problem_of shop.now order.now here).waiting (goal_at (problem_of shop.now order.now here).waiting choice.place.0) ≡ true }
    ensures { Opens shop.now (problem_of shop.now order.now before.entry) (step_of last) (problem_of shop.now order.now here.entry) choice result }
{
    may_take(shop, order, tables, here, choice)
        && !rules::commutes_with_last(
            shop,
            order,
            tables,
            before.atoms,
            before.goals,
            last,
            choice,
        )
        && !rules::lower_too(shop, order, tables, here.goals, choice)
}

// A move can tell something new: no more goals wait after it than steps are left, or no branch ran out of steps before.
pub fn can_tell(exhausted: Exhausted, left: u16, count: u16, mv: Move) -> bool
    requires { left ≤ most_depth }
    ensures { result ≡ cond (ltb 0 exhausted.0) (not (crowded left count (known_of mv))) true }
{
    exhausted.0 == 0 || !rules::crowded(left, count, mv)
}

// The least number of steps is worked out in a long search only, and where so many steps are left: elsewhere it costs more than it saves.
const WORTH_COUNTING: u16 = 5;

// The steps left at a node may be enough for the goals that wait: not too few, and no fewer than every accepted trace has.
pub fn may_suffice(given: &Given<'_>, here: Moment<'_>, node: Node) -> bool
    ensures { Suffices given.now.shop.now (problem_at given.now here.entry) node.left result }
{
    let left = node.left;
    !rules::too_few_left(given.shop, given.order, here.atoms, here.goals, left)
        && (node.exhausted.0 < Exhausted::MANY
            || left < WORTH_COUNTING
            || least::at_least(
                given.shop,
                given.order,
                given.tables,
                given.table,
                here.atoms,
                here.goals,
            )
            .is_some_and(|least| least <= left))
}
