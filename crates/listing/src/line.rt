// A line of the listing. Document 02, Req 03.
ghost use Rattle.std.specs.Prelude.{◌≡◌, List, ℕ, ◌<◌};
ghost use Rattle.hgn.specs.Network.{step_number, method_number, goal_at};
ghost use Rattle.hgn.specs.Run.{leaving};
ghost use Rattle.hgn.specs.Listing.{line_of};
ghost use Rattle.network.specs.Entries.{source_in};
ghost use Rattle.network.specs.Goals.{count_in, list_in};
ghost use Rattle.network.specs.Reaching.{ListReached};
ghost use Rattle.listing.specs.Lines.{numbers_of};

use crate::above::goals_above;
use network::goals::Goals;
use network::waiting::{Entry, Place};

// How many goals stand above the goal, the step that released it, and the step and the method that brought it in, both `Line::ORDER` for a
// goal of the order.
#[derive(Clone, Copy)]
pub struct Line {
    pub above: u16,
    pub released: u16,
    pub brought: u16,
    pub method: u16,
}

impl Line {
    // What stands for both numbers of a goal of the order.
    pub const ORDER: u16 = 65535;
}

// The step that brought a goal in.
pub fn step_of(goal: Entry) -> u16
    ensures { result ≡ step_number (source_in goal.source) }
{
    match goal.source {
        Some(used) => used.step,
        None => Line::ORDER,
    }
}

// The method that brought a goal in.
pub fn method_of(goal: Entry) -> u16
    ensures { result ≡ method_number (source_in goal.source) }
{
    match goal.source {
        Some(used) => used.method,
        None => Line::ORDER,
    }
}

// The line of the goal at a place, if it leaves in step `number`.
pub fn line_at(goals: &Goals, place: Place, number: u16) -> Line
    requires { place.0 < count_in goals.now }
    ensures { (shop order : List ℕ) (n : ℕ) → ListReached shop order n (list_in shop order goals.now)
        → result ≡ numbers_of (line_of number (leaving (list_in shop order goals.now) (goal_at (list_in shop order goals.now) place.0))) }
{
    let goal = goals.entry_at(place);
    let brought = step_of(goal);
    Line {
        above: goals_above(goals, place),
        released: number,
        brought,
        method: method_of(goal),
    }
}
