// The nodes of a network as they enter the waiting list. Document 01, "How a derivation runs".
ghost use Rattle.std.specs.Prelude.{◌≡◌, ◌≤◌, ℕ, List, length, map};
ghost use Rattle.hgn.specs.Rows.{most_rows};
ghost use Rattle.hgn.specs.Network.{most_waiting};
ghost use Rattle.sheet_index.specs.Tables.{Bounds, Walk};
ghost use Rattle.network.specs.Entering.{sheet_of, entry_of, node_entries, entering};

use crate::listed::in_network;
use crate::waiting::{Entry, Used, Waiting};
use sheet_check::rows::Row;
use sheet_index::index::Span;
use sheet_rows::position::Sheet;

// The nodes of a network that enter the list: the method that brings them in (none: the order does), the rows in which they stand, and how
// many they are.
#[derive(Clone, Copy)]
pub struct Entering {
    pub source: Option<Used>,
    pub first: Row,
    pub end: Row,
    pub count: u16,
}

// The sheet in which the rows of a goal from this source stand.
fn sheet_of(source: Option<Used>) -> Sheet
    ensures { result ≡ sheet_of source }
{
    match source {
        Some(_) => Sheet::Shop,
        None => Sheet::Order,
    }
}

// The node with these rows as goal `number` of its network. A method's last node, which comes after all the others, ends where the method
// ends.
fn node_entry(network: Entering, from: Row, to: Row, number: u16) -> Entry
    ensures { result ≡ entry_of network.source network.end.0 number (record { from = from.0; to = to.0 }) }
{
    Entry {
        rows: Span {
            sheet: sheet_of(network.source),
            from,
            to,
        },
        number,
        source: network.source,
        last: network.source.is_some() && to.0 == network.end.0,
    }
}

// The nodes of a network, written into room for just these, each with the number of nodes that it is listed after.
pub fn write_nodes(
    shop: &[u16],
    order: &[u16],
    tables: &[u16],
    network: Entering,
    room: &mut [Waiting],
)
    requires few { (length room.old ≤ most_waiting) × (network.end.0 ≤ most_rows) }
    requires walk { (bs : List Bounds) × Walk tables.now network.end.0 network.first.0 bs × (length room.old ≡ length bs) }
    ensures { (bs : List Bounds) → Walk tables.now network.end.0 network.first.0 bs
        → room.new ≡ map (entering shop.now order.now) (node_entries network.source network.end.0 bs) }
{
    let mut row = network.first.0;
    for (number, node) in room.iter_mut().enumerate() {
        let end = tables[row as usize];
        let goal = node_entry(network, Row(row), Row(end), number as u16);
        *node = Waiting {
            goal,
            pending: in_network(shop, order, goal) as u16,
        };
        row = end;
    }
}
