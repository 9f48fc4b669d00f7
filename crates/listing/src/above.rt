// How many goals stand above a waiting goal. Document 02, Req 03.
ghost use Rattle.std.specs.Prelude.{◌≡◌, List, ℕ, ◌<◌};
ghost use Rattle.hgn.specs.Network.{is_parent, goal_at, goals_above};
ghost use Rattle.network.specs.Entries.{name_in, name_of, waiting_of};
ghost use Rattle.network.specs.Goals.{count_in, list_in};
ghost use Rattle.network.specs.Reaching.{ListReached};

use network::goals::Goals;
use network::waiting::{Entry, Place};

// The other is the goal at which this goal's method was used; no goal is, of a goal of the order.
fn is_parent(goal: Entry, other: Entry) -> bool
    ensures { (shop order : List ℕ) → result ≡ is_parent (name_of (name_in other)) (waiting_of shop order goal).parent }
{
    goal.is_under(other.name())
}

// How many goals stand above the goal at a place. A goal's parent stands behind it, so one walk finds them all: behind each that is found
// its own parent is looked for.
pub fn goals_above(goals: &Goals, place: Place) -> u16
    requires { place.0 < count_in goals.now }
    ensures { (shop order : List ℕ) (n : ℕ) → ListReached shop order n (list_in shop order goals.now)
        → result ≡ goals_above (list_in shop order goals.now) (goal_at (list_in shop order goals.now) place.0) }
{
    let count = goals.len();
    let mut goal = goals.entry_at(place);
    let mut above: u16 = 0;
    for at in place.0 + 1..count {
        let other = goals.entry_at(Place(at));
        if is_parent(goal, other) {
            above += 1;
            goal = other;
        }
    }
    above
}
