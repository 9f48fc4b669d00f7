// The search by places and moves: the place routine calls the move routine at each free goal, that one tries each open move, and behind
// a step that is taken the place routine goes on with one step fewer. Document 01, "How a derivation runs".
ghost use Rattle.std.specs.Prelude.{◌≡◌, true, ◌≤◌, ◌<◌, ◌+◌, ◌-◌};
ghost use Rattle.hgn.specs.Network.{free as freeIn, goal_at};
ghost use Rattle.hgn.specs.Shop.{domain};
ghost use Rattle.hgn.specs.Run.{Problem, Step};
ghost use Rattle.hgn.specs.Search.{most_depth};
ghost use Rattle.hgn.specs.Replay.{rules_of};
ghost use Rattle.network.specs.Goals.{count_in};
ghost use Rattle.step.specs.Taking.{Going};
ghost use Rattle.search_theory.specs.Pruned.{pruned_of, moves_from};
ghost use Rattle.search_pruning.specs.Tests.{step_of};
ghost use Rattle.search.specs.Founds.{Finds, left_in};
ghost use Rattle.search.specs.Trials.{first_node, problem_at, Stands, Open, tried};

use crate::found::{Exhausted, Steps};
use crate::lent::{Given, Moment};
use crate::trial;
use network::waiting::Place;
use search_pruning::{moves, rules};
use sheet_check::sizes::ShopSizes;
use step::moves::{Choice, Move};
use step::taking;

// Where a search stands: the last step, how many steps are left, the number of the next, and how many branches
// ran out of steps before it.
#[derive(Clone, Copy)]
pub struct Node {
    pub last: Choice,
    pub left: u16,
    pub number: u16,
    pub exhausted: Exhausted,
}

impl Node {
    // Where a search of so many steps begins. No step was before it: a release at place 0 stands for that one, which no step goes before.
    pub fn first(left: u16) -> Node
        ensures { result ≡ first_node left }
    {
        Node {
            last: Choice {
                mv: Move::Release,
                place: Place(0),
            },
            left,
            number: 0,
            exhausted: Exhausted(0),
        }
    }
}

// The first trace of so many steps from a moment on, none of its steps left out, into lent room: steps that are handed back are copied, and each level
// of a search would keep some copies on the stack. The last step was taken at the moment `before`.
#[cycle(follow_moves_places)]
pub fn places(
    given: &Given<'_>,
    here: Moment<'_>,
    before: Moment<'_>,
    node: Node,
    found: &mut Steps,
) -> Result<(), Exhausted>
    requires { Stands given.now here before node }
    ensures { Finds (λ k. pruned_of k (rules_of given.now.shop.now) (problem_at given.now before.entry) (step_of node.last) node.number
        (problem_at given.now here.entry)) node.number node.left (left_in found.new result) }
{
    let count = here.goals.len();
    if node.left == 0 {
        if count == 0 {
            return Ok(());
        }
        return Err(node.exhausted.one_more());
    }
    let mut exhausted = node.exhausted;
    for i in 0..count {
        let place = Place(i);
        if here.goals.is_free(place) {
            match moves(
                given,
                here,
                before,
                Node { exhausted, ..node },
                place,
                found,
            ) {
                Ok(()) => return Ok(()),
                Err(others) => exhausted = exhausted.max(others),
            }
        }
    }
    Err(exhausted)
}

// The first trace of so many steps whose first is taken at this free goal, none of its steps left out.
#[cycle(follow_moves_places)]
fn moves(
    given: &Given<'_>,
    here: Moment<'_>,
    before: Moment<'_>,
    node: Node,
    place: Place,
    found: &mut Steps,
) -> Result<(), Exhausted>
    requires stands { Stands given.now here before node × (1 ≤ node.left) }
    requires place_bound { (place.0 < count_in here.goals.now) × (freeIn (problem_at given.now here).waiting (goal_at (problem_at given.now here).waiting place.0) ≡ true) }
    ensures { Finds (λ k. moves_from (tried (k - 1) (rules_of given.now.shop.now) (problem_at given.now before.entry) (step_of node.last) node.number
        (problem_at given.now here.entry)) (domain given.now.shop.now) place.0 0)
        node.number node.left (left_in found.new result) }
{
    let sizes = ShopSizes::of(given.shop);
    let all = sizes.actions + sizes.methods;
    let count = here.goals.len();
    let mut exhausted = node.exhausted;
    for i in 0..=all {
        let mv = moves::nth(i, sizes.actions);
        let choice = Choice { mv, place };
        if trial::can_tell(exhausted, node.left - 1, count, mv)
            && trial::is_open(
                given.shop,
                given.order,
                given.tables,
                here,
                before,
                node.last,
                choice,
            )
        {
            match follow(given, here, Node { exhausted, ..node }, choice, found) {
                Ok(()) => return Ok(()),
                Err(others) => exhausted = exhausted.max(others),
            }
        }
    }
    Err(exhausted)
}

// The first trace of so many steps whose first is this open step, none of its steps left out.
#[cycle(follow_moves_places)]
fn follow(
    given: &Given<'_>,
    here: Moment<'_>,
    node: Node,
    choice: Choice,
    found: &mut Steps,
) -> Result<(), Exhausted>
    requires going { Going given.now.shop.now given.now.order.now node.number here.atoms.now here.goals.now × (1 ≤ node.left)
        × (node.number + node.left ≤ most_depth) }
    requires fact { (P₀ : Problem) × (y : Step) × Open given.now.shop.now P₀ y (problem_at given.now here) choice }
    ensures { (P₀ : Problem) (y : Step) → Open given.now.shop.now P₀ y (problem_at given.now here.entry) choice
        → Finds (λ k. tried (k - 1) (rules_of given.now.shop.now) P₀ y node.number (problem_at given.now here.entry) (step_of choice))
        node.number node.left (left_in found.new result) }
{
    let left = node.left - 1;
    let number = node.number;
    if rules::crowded(left, here.goals.len(), choice.mv) {
        return Err(node.exhausted.one_more());
    }
    let mut next_atoms = *here.atoms;
    let mut next_goals = *here.goals;
    taking::apply(
        given.shop,
        given.order,
        given.tables,
        &mut next_atoms,
        &mut next_goals,
        number,
        choice,
    );
    let next = Moment {
        atoms: &next_atoms,
        goals: &next_goals,
    };
    let next_node = Node {
        last: choice,
        left,
        number: number + 1,
        exhausted: node.exhausted,
    };
    if !trial::may_suffice(given, next, next_node) {
        return Err(node.exhausted.one_more());
    }
    places(given, next, here, next_node, found)?;
    found.put(number, moves::number_of(choice.mv), choice.place);
    Ok(())
}
