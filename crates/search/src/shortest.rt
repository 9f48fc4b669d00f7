// The first of the shortest traces of sheets that passed: the search by lengths. Document 01, "How a derivation runs".
ghost use Rattle.std.specs.Prelude.{◌≡◌, suc, ◌≤◌, ◌+◌, length, IfSome};
ghost use Rattle.hgn.specs.Rows.{most_rows};
ghost use Rattle.hgn.specs.Shop.{most_actions, most_methods};
ghost use Rattle.hgn.specs.Questions.{passed};
ghost use Rattle.hgn.specs.Order.{check_order};
ghost use Rattle.hgn.specs.Replay.{rules_of};
ghost use Rattle.hgn.specs.Search.{searched, most_depth};
ghost use Rattle.step.specs.Taking.{Going};
ghost use Rattle.search_theory.specs.Pruned.{pruned_shortest};
ghost use Rattle.search.specs.Trials.{problem_at};
ghost use Rattle.search.specs.Founds.{shortest_of, shortest_in};

use crate::explore;
use crate::explore::Node;
use crate::found::{Exhausted, Steps};
use crate::lent::{Given, Moment};
use network::goals::Goals;
use replay::first;
use search_bound::achievers::Table;
use search_bound::least;
use sheet_index::index::Tables;

// The first of the shortest traces, and how many steps it has.
#[derive(Clone, Copy)]
pub struct Shortest {
    pub length: u16,
    pub steps: Steps,
}

// The first trace of as many steps as every trace has at least, or of one more, and so on up to `depth`. A length at which no branch
// runs out of steps is the last that is tried, since then no longer trace exists. Its steps are left in lent room.
fn deepen(given: &Given<'_>, start: Moment<'_>, depth: u16, steps: &mut Steps) -> Option<u16>
    requires { Going given.now.shop.now given.now.order.now 0 start.atoms.now start.goals.now × (depth ≤ most_depth) }
    ensures { (shortest_of (shortest_in steps.new result) ≡ pruned_shortest depth (rules_of given.now.shop.now) (problem_at given.now start.entry)) × IfSome result (λ n. n ≤ depth) }
{
    let Some(least) = least::at_least(
        given.shop,
        given.order,
        given.tables,
        given.table,
        start.atoms,
        start.goals,
    ) else {
        return None;
    };
    for left in least..=depth {
        match explore::places(given, start, start, Node::first(left), steps) {
            Ok(()) => return Some(left),
            Err(Exhausted(0)) => return None,
            Err(_) => {}
        }
    }
    None
}

// The shortest trace of sheets that passed, found with the index in tables that are lent.
fn search_indexed(
    shop: &[u16],
    order: &[u16],
    depth: u16,
    tables: &mut [u16],
    steps: &mut Steps,
) -> Option<u16>
    requires order_value { (check_order shop.now order.now ≡ passed) × (depth ≤ most_depth) }
    requires most_methods_in_bounds { most_rows + suc (most_actions + most_methods) ≤ length tables.old }
    ensures { (shortest_of (shortest_in steps.new result) ≡ searched shop.now order.now depth) × IfSome result (λ n. n ≤ depth) }
{
    let mut goals = Goals::empty();
    first::begun(shop, order, tables, &mut goals);
    let atoms = first::start(shop, order);
    let mut table = Table::empty();
    table.fill(shop, order, tables);
    let given = Given {
        shop,
        order,
        tables,
        table: &table,
    };
    let start = Moment {
        atoms: &atoms,
        goals: &goals,
    };
    deepen(&given, start, depth, steps)
}

// The shortest trace of sheets that passed. The tables of their index have the largest sheet's size, since no size is known before.
pub fn search_checked(shop: &[u16], order: &[u16], depth: u16) -> Option<Shortest>
    requires { (check_order shop.now order.now ≡ passed) × (depth ≤ most_depth) }
    ensures { (shortest_of result ≡ searched shop.now order.now depth) × IfSome result (λ r. r.length ≤ depth) }
{
    let mut tables = [0u16; Tables::WORDS];
    let mut steps = Steps::NONE;
    let length = search_indexed(shop, order, depth, &mut tables, &mut steps)?;
    Some(Shortest { length, steps })
}
