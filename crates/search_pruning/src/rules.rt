// The steps that the search leaves out, one test for each reason. None stands on the first of the shortest traces.
ghost use Rattle.std.specs.Prelude.{◌≡◌, ◌&&◌, ◌≤◌, ◌<◌, take};
ghost use Rattle.hgn.specs.Tag as Tag;
ghost use Rattle.hgn.specs.Lists.{any, all};
ghost use Rattle.hgn.specs.Meaning.{literals as literalsOf};
ghost use Rattle.hgn.specs.State.{formula_holds, relevant};
ghost use Rattle.hgn.specs.Network.{free as freeIn};
ghost use Rattle.hgn.specs.Shop.{domain, action_count, method_count};
ghost use Rattle.hgn.specs.Replay.{rules_of};
ghost use Rattle.network.specs.Entries.{waiting_of};
ghost use Rattle.sheet_index.specs.Index.{rows_in};
ghost use Rattle.sheet_index.specs.Tables.{Indexed};
ghost use Rattle.step.specs.Moves.{Known, known_of};
ghost use Rattle.step.specs.Taking.{problem_with, ValidGoals};
ghost use Rattle.network.specs.Goals.{count_in, entry_in, list_in};
ghost use Rattle.search_theory.specs.Rules as Rules;
ghost use Rattle.search_pruning.specs.Tests.{step_of, earlier_choice, swap_ready, crowded as isCrowded};
ghost use Rattle.hgn.specs.Search.{most_depth};

use network::goals::Goals;
use network::waiting::{Entry, Place};
use sheet_check::check::Shop;
use sheet_index::operators;
use sheet_index::rows::Rows;
use state::literals::LiteralTags;
use state::{literals, parts};
use step::moves::{Choice, Move};
use step::problem;

// What a move asks of the state at a goal: that it holds, or that the needs do.
pub fn ready(
    shop: &[u16],
    order: &[u16],
    tables: &[u16],
    atoms: &[bool; Shop::MOST_ATOMS as usize],
    goal: Entry,
    mv: Move,
) -> bool
    requires { Indexed shop.now order.now tables.now × Known (action_count shop.now) (method_count shop.now) mv }
    ensures { result ≡ Rules.ready (domain shop.now) atoms.now (waiting_of shop.now order.now goal) (known_of mv) }
{
    match mv {
        Move::Release => parts::goal_holds(atoms, shop, order, goal.rows),
        Move::Act(action) => {
            let rows = operators::action_part(shop, tables, action);
            literals::all_hold(atoms, rows, LiteralTags::NEEDS)
        }
        Move::Use(method) => {
            let rows = operators::method_rows(shop, tables, method);
            let head = Rows::of_shop(shop, rows.from, rows.first);
            literals::all_hold(atoms, head, LiteralTags::NEEDS)
        }
    }
}

// More goals wait after the move than steps are left after it. `count` goals wait before it.
pub fn crowded(left: u16, count: u16, mv: Move) -> bool
    requires { left ≤ most_depth }
    ensures { result ≡ isCrowded left count (known_of mv) }
{
    match mv {
        Move::Release => left + 1 < count,
        _ => left < count,
    }
}

// The action's effects hold already, so it leaves the state as it was.
pub fn has_no_effect(
    shop: &[u16],
    order: &[u16],
    tables: &[u16],
    atoms: &[bool; Shop::MOST_ATOMS as usize],
    mv: Move,
) -> bool
    requires { Indexed shop.now order.now tables.now × Known (action_count shop.now) (method_count shop.now) mv }
    ensures { result ≡ Rules.has_no_effect (domain shop.now) atoms.now (known_of mv) }
{
    match mv {
        Move::Act(action) => {
            let rows = operators::action_part(shop, tables, action);
            literals::all_hold(atoms, rows, LiteralTags::EFFECTS)
        }
        _ => false,
    }
}

// An action with these rows is relevant to a free goal at a place below this one.
fn relevant_lower(shop: &[u16], order: &[u16], goals: &Goals, rows: Rows, place: Place) -> bool
    requires { ValidGoals shop.now order.now goals.now × (place.0 ≤ count_in goals.now) }
    ensures { result ≡ any
        (λ g. relevant (literalsOf Tag.makes_true Tag.makes_false (rows_in rows.entry)) g.formula
        && freeIn (list_in shop.now order.now goals.now) g)
        (take place.0 (list_in shop.now order.now goals.now)) }
{
    for i in 0..place.0 {
        if goals.is_free(Place(i)) {
            let goal = goals.entry_at(Place(i));
            if parts::relevant_to(shop, order, rows, LiteralTags::EFFECTS, goal.rows) {
                return true;
            }
        }
    }
    false
}

// A free goal at a lower place has the action relevant too.
pub fn lower_too(shop: &[u16], order: &[u16], tables: &[u16], goals: &Goals, choice: Choice) -> bool
    requires indexed { Indexed shop.now order.now tables.now × Known (action_count shop.now) (method_count shop.now) choice.mv }
    requires valid_goals { ValidGoals shop.now order.now goals.now × (choice.place.0 ≤ count_in goals.now) }
    ensures { result ≡ Rules.lower_too (rules_of shop.now) (list_in shop.now order.now goals.now) choice.place.0 (known_of choice.mv) }
{
    match choice.mv {
        Move::Act(action) => {
            let rows = operators::action_part(shop, tables, action);
            relevant_lower(shop, order, goals, rows, choice.place)
        }
        _ => false,
    }
}

// Every waiting goal holds.
fn goals_hold(
    shop: &[u16],
    order: &[u16],
    atoms: &[bool; Shop::MOST_ATOMS as usize],
    goals: &Goals,
) -> bool
    ensures { result ≡ all (λ g. formula_holds atoms.now g.formula) (list_in shop.now order.now goals.now) }
{
    for i in 0..goals.len() {
        let goal = goals.entry_at(Place(i));
        if !parts::goal_holds(atoms, shop, order, goal.rows) {
            return false;
        }
    }
    true
}

// Too few steps are left for the goals that wait: each takes a release, and one more step is wanted where one of them does not hold.
pub fn too_few_left(
    shop: &[u16],
    order: &[u16],
    atoms: &[bool; Shop::MOST_ATOMS as usize],
    goals: &Goals,
    left: u16,
) -> bool
    ensures { result ≡ Rules.too_few_left left (problem_with shop.now order.now atoms.now goals.now) }
{
    let count = goals.len();
    left < count || (left == count && !goals_hold(shop, order, atoms, goals))
}

// A step after the last one would come earlier in the order on traces if it were taken first.
fn is_earlier(last: Choice, choice: Choice) -> bool
    ensures { result ≡ earlier_choice last choice }
{
    if choice.place.0 != last.place.0 {
        return choice.place.0 < last.place.0;
    }
    match (choice.mv, last.mv) {
        (Move::Act(action), Move::Act(last_action)) => 0 < action && action < last_action,
        _ => false,
    }
}

// A move changes the state where it stands: an action by its effects, another move not at all.
fn change(
    shop: &[u16],
    order: &[u16],
    tables: &[u16],
    atoms: &mut [bool; Shop::MOST_ATOMS as usize],
    mv: Move,
)
    requires { Indexed shop.now order.now tables.now × Known (action_count shop.now) (method_count shop.now) mv }
    ensures { atoms.new ≡ Rules.state_after (domain shop.now) atoms.old (known_of mv) }
{
    if let Move::Act(action) = mv {
        problem::act(atoms, shop, order, tables, action);
    }
}

// Two moves, one after the other in either order, leave the same state. Only of two actions is that a question.
fn commute(
    shop: &[u16],
    order: &[u16],
    tables: &[u16],
    atoms: &[bool; Shop::MOST_ATOMS as usize],
    last: Move,
    mv: Move,
) -> bool
    requires { Indexed shop.now order.now tables.now × Known (action_count shop.now) (method_count shop.now) last × Known (action_count shop.now) (method_count shop.now) mv }
    ensures { result ≡ Rules.commute (domain shop.now) atoms.now (known_of last) (known_of mv) }
{
    match (last, mv) {
        (Move::Act(last_action), Move::Act(action)) => {
            let mut swapped = *atoms;
            problem::act(&mut swapped, shop, order, tables, action);
            problem::act(&mut swapped, shop, order, tables, last_action);
            let mut taken = *atoms;
            problem::act(&mut taken, shop, order, tables, last_action);
            problem::act(&mut taken, shop, order, tables, action);
            swapped == taken
        }
        _ => true,
    }
}

// Both moves ask nothing that fails where this one is taken before the last, and they leave the same state. It is compiled apart: its copies of the
// state would else stand on the stack of each level of a search.
#[inline(never)]
fn swap_ready(
    shop: &[u16],
    order: &[u16],
    tables: &[u16],
    atoms: &[bool; Shop::MOST_ATOMS as usize],
    goals: &Goals,
    last: Choice,
    choice: Choice,
) -> bool
    requires indexed { Indexed shop.now order.now tables.now × (last.place.0 < count_in goals.now) × (choice.place.0 < count_in goals.now) }
    requires known { Known (action_count shop.now) (method_count shop.now) last.mv × Known (action_count shop.now) (method_count shop.now) choice.mv }
    ensures { result ≡ swap_ready (domain shop.now) atoms.now
        (waiting_of shop.now order.now (entry_in goals.now last.place.0)) (known_of last.mv)
        (waiting_of shop.now order.now (entry_in goals.now choice.place.0)) (known_of choice.mv) }
{
    let goal = goals.entry_at(choice.place);
    if !ready(shop, order, tables, atoms, goal, choice.mv) {
        return false;
    }
    let mut next = *atoms;
    change(shop, order, tables, &mut next, choice.mv);
    let last_goal = goals.entry_at(last.place);
    ready(shop, order, tables, &next, last_goal, last.mv)
        && commute(shop, order, tables, atoms, last.mv, choice.mv)
}

// The step could have been taken before the last one with the same result. The last one was taken from this state and these goals.
pub fn commutes_with_last(
    shop: &[u16],
    order: &[u16],
    tables: &[u16],
    atoms: &[bool; Shop::MOST_ATOMS as usize],
    goals: &Goals,
    last: Choice,
    choice: Choice,
) -> bool
    requires indexed { Indexed shop.now order.now tables.now × ValidGoals shop.now order.now goals.now × (last.place.0 < count_in goals.now) }
    requires known { Known (action_count shop.now) (method_count shop.now) last.mv × Known (action_count shop.now) (method_count shop.now) choice.mv }
    ensures { result ≡ Rules.commutes_with_last (domain shop.now)
        (problem_with shop.now order.now atoms.now goals.now) (step_of last) (step_of choice) }
{
    is_earlier(last, choice)
        && goals.is_free(choice.place)
        && swap_ready(shop, order, tables, atoms, goals, last, choice)
}
