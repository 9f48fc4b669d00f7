// What comes out of joining two orders, worked out before a word is written. Document 01, "How a derivation runs".
ghost use Rattle.hgn.specs.Rows.{rows_of};
ghost use Rattle.sheet_join.specs.Joinings.{Holds, FirstGoal, PassWithOne, IsJoining};

use sheet_check::rows::Layout;
use sheet_check::sizes::OrderSizes;
use sheet_rows::tag;

// The sizes of the joined sheet, and which rows of the second order go into it.
#[derive(Clone, Copy)]
pub struct Joining {
    // F.
    pub atoms: u16,
    // G, the goals of the first order, which come before those of the second.
    pub before: u16,
    // G + H.
    pub goals: u16,
    // The row of the second order from which on its rows are put: its first goal's. The 12 rows before it are dropped.
    pub from: usize,
    // N, the rows that come out.
    pub rows: usize,
}

// The row at which the goals of an order begin; the end of its rows where it has none.
fn first_goal(order: &[u16], layout: Layout) -> usize
    requires { Holds layout order.now }
    ensures { FirstGoal (rows_of layout.sizes layout.rows order.now) result }
{
    let tags = &order[layout.sizes..layout.sizes + layout.rows];
    tags.iter()
        .position(|&tag| tag == tag::NODE)
        .unwrap_or(layout.rows)
}

impl Joining {
    // The rows of the first, those of the second that are put, and one more for each goal of the first in each goal of the second.
    pub fn of(first: &[u16], second: &[u16]) -> Joining
        requires { PassWithOne first.now second.now }
        ensures { IsJoining first.now second.now result }
    {
        let one = OrderSizes::of(first);
        let two = OrderSizes::of(second);
        let from = first_goal(second, two.layout());
        let kept = two.rows as usize - from;
        let new = two.goals as usize * one.goals as usize;
        Joining {
            atoms: one.atoms,
            before: one.goals,
            goals: one.goals + two.goals,
            from,
            rows: one.rows as usize + kept + new,
        }
    }
}
