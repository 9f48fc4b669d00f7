// How often one waiting goal is listed after another, and how many nodes of its network it comes after. Document 01, "How a derivation
// runs".
ghost use Rattle.std.specs.Prelude.{◌≡◌, ◌-◌, ◌≤◌, length, map};
ghost use Rattle.hgn.specs.Tag as Tag;
ghost use Rattle.hgn.specs.Rows.{values_tagged};
ghost use Rattle.sheet_index.specs.Index.{rows_in};
ghost use Rattle.network.specs.Entries.{waiting_of};
ghost use Rattle.network.specs.Pending.{occurrences, times_listed, lowered, CountsLeaving};

use crate::waiting::{Entry, Waiting};
use sheet_index::rows::Rows;
use sheet_rows::tag;

// How often the number stands in the 11 rows of a node.
fn occurrences_of(node: Rows, number: u16) -> usize
    ensures { result ≡ occurrences number (values_tagged Tag.after (rows_in node.entry)) }
{
    let mut found = 0;
    for (tag, value) in node.iter() {
        if *tag == tag::AFTER && *value == number {
            found += 1;
        }
    }
    found
}

// The number of 11 rows of a node.
fn count_afters(node: Rows) -> usize
    ensures { result ≡ length (values_tagged Tag.after (rows_in node.entry)) }
{
    let mut found = 0;
    for (tag, _) in node.iter() {
        if *tag == tag::AFTER {
            found += 1;
        }
    }
    found
}

// How many nodes of its network the goal comes after, as it is listed.
pub fn in_network(shop: &[u16], order: &[u16], goal: Entry) -> usize
    ensures { result ≡ length (waiting_of shop.now order.now goal).after }
{
    if goal.last {
        return goal.number as usize;
    }
    count_afters(goal.rows.rows(shop, order))
}

// How often the goal is listed after the node of its network with this number.
fn after_node(shop: &[u16], order: &[u16], goal: Entry, number: u16) -> usize
    ensures { result ≡ occurrences number (waiting_of shop.now order.now goal).after }
{
    if goal.last {
        return usize::from(number < goal.number);
    }
    occurrences_of(goal.rows.rows(shop, order), number)
}

// How often the goal is listed after the other.
pub fn times_listed(shop: &[u16], order: &[u16], goal: Entry, other: Entry) -> usize
    ensures { result ≡ times_listed (waiting_of shop.now order.now goal) (waiting_of shop.now order.now other) }
{
    let name = goal.name();
    if name.step == other.name().step {
        let times = after_node(shop, order, goal, other.number);
        if times != 0 {
            return times;
        }
    }
    usize::from(other.is_under(name))
}

// A count made less.
fn less(count: u16, times: usize) -> u16
    requires { times ≤ count }
    ensures { result ≡ count - times }
{
    count - times as u16
}

// The counts of goals are made less by how often each is listed after a goal that leaves.
pub fn lower_counts(shop: &[u16], order: &[u16], goals: &mut [Waiting], leaving: Entry)
    requires { CountsLeaving shop.now order.now leaving goals.old }
    ensures { goals.new ≡ map (lowered shop.now order.now leaving) goals.old }
{
    for later in goals.iter_mut() {
        // A goal that is free is listed after no goal that waits.
        if !later.is_free() {
            later.pending = less(
                later.pending,
                times_listed(shop, order, later.goal, leaving),
            );
        }
    }
}
