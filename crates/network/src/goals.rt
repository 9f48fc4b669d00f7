// The waiting goals, in an array of as many as may wait. Document 01, "How a derivation runs".
ghost use Rattle.std.specs.Prelude.{◌≡◌, ◌≤◌, length};
ghost use Rattle.hgn.specs.Network.{most_waiting};

use crate::entering::{Entering, write_nodes};
use crate::listed::lower_counts;
use crate::waiting::{Entry, Place, Used, Waiting};
use sheet_check::rows::Row;
use sheet_index::index::Span;
use sheet_index::operators;
use sheet_rows::position::Sheet;

// The first `count` entries wait, in the order of their places. What stands behind them has no meaning.
#[derive(Clone, Copy)]
pub struct Goals {
    count: u16,
    entries: [Waiting; Goals::MOST as usize],
    pub ghost few: { count ≤ most_waiting },
    pub ghost whole: { length entries ≡ most_waiting },
}

impl Goals {
    ghost use Rattle.std.specs.Prelude.{◌≡◌, true, ℕ, ◌≤◌, ◌<◌, ◌+◌, eqb, length, List, MatchOption, IsTrue, ◌↔◌};
    ghost use Rattle.hgn.specs.Rows.{most_rows};
    ghost use Rattle.hgn.specs.Meaning.{network_of};
    ghost use Rattle.hgn.specs.Network.{most_waiting, free, any_free, goal_at};
    ghost use Rattle.hgn.specs.Run.{method_at};
    ghost use Rattle.hgn.specs.Shop.{domain, method_count};
    ghost use Rattle.hgn.specs.Order.{check_order};
    ghost use Rattle.hgn.specs.Questions.{passed};
    ghost use Rattle.sheet_index.specs.Tables.{Indexed, Bounds, Walk};
    ghost use Rattle.network.specs.Goals.{count_in, at_place, entry_in, pending_in, list_in, counts_in, waiting_in, Put, Left, Decomposed, Begun};
    ghost use Rattle.network.specs.Pending.{PendingCounts};
    ghost use Rattle.network.specs.Reaching.{ListReached};

    // The most goals that may wait.
    pub const MOST: u16 = 64;

    // What stands behind the goals that wait is all zeros, the first sheet's number too, so that the compiler clears the array at once.
    pub fn empty() -> Goals
        ensures { count_in result ≡ 0 }
    {
        let nothing = Waiting {
            goal: Entry {
                rows: Span {
                    sheet: Sheet::Shop,
                    from: Row(0),
                    to: Row(0),
                },
                number: 0,
                source: None,
                last: false,
            },
            pending: 0,
        };
        Goals {
            count: 0,
            entries: [nothing; Goals::MOST as usize],
        }
    }

    // These goals wait, in this order; none where they are more than may.
    pub fn of(waiting: &[Waiting]) -> Option<Goals>
        ensures { MatchOption result (most_waiting < length waiting.now) (λ g. waiting_in g ≡ waiting.now) }
    {
        if waiting.len() > Goals::MOST as usize {
            return None;
        }
        let mut entries = Goals::empty().entries;
        entries[..waiting.len()].copy_from_slice(waiting);
        Some(Goals {
            count: waiting.len() as u16,
            entries,
        })
    }

    // How many goals wait.
    pub fn len(&self) -> u16
        ensures { result ≡ count_in self.now }
    {
        self.count
    }

    // The goal at a place.
    pub fn entry_at(&self, place: Place) -> Entry
        requires { place.0 < most_waiting }
        ensures { result ≡ entry_in self.now place.0 }
    {
        self.entries[place.0 as usize].goal
    }

    // The goal at a place is free: it is listed after no goal that still waits.
    pub fn is_free(&self, place: Place) -> bool
        requires { place.0 < most_waiting }
        ensures { result ≡ eqb (pending_in self.now place.0) 0 }
    {
        self.entries[place.0 as usize].is_free()
    }

    // The goal that waits at a place, if one does.
    pub fn get(&self, place: Place) -> Option<Waiting>
        ensures { MatchOption result (count_in self.now ≤ place.0) (λ w. (place.0 < count_in self.now) × (w ≡ at_place self.now place.0)) }
    {
        if place.0 < self.count {
            return Some(self.entries[place.0 as usize]);
        }
        None
    }

    // A goal with its count is written at a place. How many goals wait stays as it was.
    pub fn put(&mut self, place: Place, goal: Entry, pending: u16)
        requires { place.0 < most_waiting }
        ensures { Put place.0 goal pending self.old self.new }
    {
        self.entries[place.0 as usize] = Waiting { goal, pending };
    }

    // Some waiting goal is free.
    pub fn any_free(&self) -> bool
        ensures { (shop order : List ℕ) → PendingCounts (list_in shop order self.now) (counts_in self.now) → result ≡ any_free (list_in shop order self.now) }
    {
        self.has_free()
    }

    // Some waiting goal's count is 0: the clause that the chain's own clauses give. `any_free` has it in the words of the definition.
    fn has_free(&self) -> bool
        ensures { IsTrue result ↔ ((k : ℕ) × (k < count_in self.now) × (pending_in self.now k ≡ 0)) }
    {
        self.entries[..self.count as usize]
            .iter()
            .any(|waiting| waiting.is_free())
    }

    // The goal at a place leaves; the goals behind it move down one place.
    pub fn leave(&mut self, shop: &[u16], order: &[u16], place: Place)
        requires within { (place.0 < count_in self.old) × PendingCounts (list_in shop.now order.now self.old) (counts_in self.old) }
        requires by_index { ((n : ℕ) × ListReached shop.now order.now n (list_in shop.now order.now self.old)) × (check_order shop.now order.now ≡ passed) }
        ensures { Left shop.now order.now place.0 self.old self.new }
    {
        let at = place.0 as usize;
        let count = self.count as usize;
        let leaving = self.entries[at].goal;
        lower_counts(shop, order, &mut self.entries[at + 1..count], leaving);
        self.entries.copy_within(at + 1..count, at);
        self.count -= 1;
    }

    // The nodes of a method, used at step `number` at the free goal of a place, enter directly before it, and it comes after each of them.
    pub fn decompose(
        &mut self,
        shop: &[u16],
        order: &[u16],
        tables: &[u16],
        number: u16,
        method: u16,
        place: Place,
    )
        requires indexed { Indexed shop.now order.now tables.now × (method < method_count shop.now) }
        requires within { (place.0 < count_in self.old) × (count_in self.old + length (network_of (method_at (domain shop.now) method)) ≤ most_waiting) }
        requires list_reached { ListReached shop.now order.now number (list_in shop.now order.now self.old) × PendingCounts (list_in shop.now order.now self.old) (counts_in self.old) }
        requires place_value { free (list_in shop.now order.now self.old) (goal_at (list_in shop.now order.now self.old) place.0) ≡ true }
        ensures { Decomposed shop.now order.now place.0 number method self.old self.new }
    {
        let rows = operators::method_rows(shop, tables, method);
        let nodes = operators::nodes_between(tables, rows.first, rows.end);
        let at = place.0 as usize;
        let behind = at + nodes.count as usize;
        let goal = self.entries[at].goal;
        let network = Entering {
            source: Some(Used {
                step: number,
                method,
                parent: goal.name(),
            }),
            first: rows.first,
            end: rows.end,
            count: nodes.count,
        };
        self.entries.copy_within(at..self.count as usize, behind);
        self.count += nodes.count;
        write_nodes(shop, order, tables, network, &mut self.entries[at..behind]);
        self.entries[behind].pending = nodes.count;
    }

    // The nodes of a network are all that waits.
    pub fn begin(&mut self, shop: &[u16], order: &[u16], tables: &[u16], network: Entering)
        requires few { (network.count ≤ most_waiting) × (network.end.0 ≤ most_rows) }
        requires walk { (bs : List Bounds) × Walk tables.now network.end.0 network.first.0 bs × (network.count ≡ length bs) }
        ensures { (bs : List Bounds) → Walk tables.now network.end.0 network.first.0 bs
            → Begun shop.now order.now network.source network.end.0 bs self.new }
    {
        let count = network.count as usize;
        write_nodes(shop, order, tables, network, &mut self.entries[0..count]);
        self.count = network.count;
    }
}
