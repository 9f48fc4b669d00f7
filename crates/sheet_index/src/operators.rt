// Where the actions, the methods and the nodes of a checked shop sheet stand, by its table. Document 01, "The three sheets".
ghost use Rattle.std.specs.Prelude.{◌≡◌, List, [], ℕ, ◌+◌, ◌<◌, ◌≤◌, length, get_or};
ghost use Rattle.hgn.specs.Lists.{split_at_each};
ghost use Rattle.hgn.specs.Meaning.{begins_operator};
ghost use Rattle.hgn.specs.Rows.{most_rows};
ghost use Rattle.hgn.specs.Run.{action_at};
ghost use Rattle.hgn.specs.Shop.{domain, action_count, method_count, shop_rows};
ghost use Rattle.sheet_rows.specs.declared.position.Sheet.TheVariants as Of;
ghost use Rattle.sheet_index.specs.Index.{span_of, span_rows};
ghost use Rattle.sheet_index.specs.Tables.{Indexed, ActionIn, Bounds, Walk, NodesCounted, MethodAt};

use crate::index;
use crate::index::{Span, Tables};
use crate::rows::Rows;
use sheet_check::rows::{Row, word};
use sheet_check::sizes::ShopSizes;
use sheet_rows::position::Sheet;

// A method: its first row, the row at which its nodes begin, and the row behind its last.
#[derive(Clone, Copy)]
pub struct MethodRows {
    pub from: Row,
    pub first: Row,
    pub end: Row,
}

// The nodes of a part: how many, and where the last starts.
#[derive(Clone, Copy)]
pub struct Nodes {
    pub count: u16,
    pub last: Row,
}

impl Span {
    // Rows of the shop sheet.
    pub fn of_shop(from: Row, to: Row) -> Span
        ensures { result ≡ span_of Of.Shop from.0 to.0 }
    {
        Span {
            sheet: Sheet::Shop,
            from,
            to,
        }
    }
}

// The rows of an action or a method: actions and methods are counted together from 0, in the sheet's order.
pub fn operator_rows(tables: &[u16], operator: u16) -> Span
    requires { (shop order : List ℕ) × Indexed shop order tables.now × (operator < action_count shop + method_count shop) }
    ensures { (shop order : List ℕ) → Indexed shop order tables.now → operator < action_count shop + method_count shop
        → span_rows shop order result ≡ get_or (split_at_each begins_operator (shop_rows shop)) operator [] }
{
    let at = Tables::STARTS + operator as usize;
    Span::of_shop(Row(tables[at]), Row(tables[at + 1]))
}

// The rows of an action behind its first, by its number, from 1: its needs and its effects.
pub fn action_part<'a>(shop: &'a [u16], tables: &[u16], action: u16) -> Rows<'a>
    requires { (order : List ℕ) × Indexed shop.now order tables.now × (1 ≤ action) × (action ≤ action_count shop.now) }
    ensures { ActionIn shop.now action result }
{
    let at = Tables::STARTS + action as usize;
    Rows::of_shop(shop, Row(tables[at - 1] + 1), Row(tables[at]))
}

// The cost of an action by its number, from 1: the value of its first row.
pub fn action_cost(shop: &[u16], tables: &[u16], action: u16) -> u16
    requires { (order : List ℕ) × Indexed shop.now order tables.now × (1 ≤ action) × (action ≤ action_count shop.now) }
    ensures { result ≡ (action_at (domain shop.now) action).cost }
{
    let at = Tables::STARTS + action as usize;
    index::layout_of(Sheet::Shop, shop).value(shop, Row(tables[at - 1]))
}

// The rows of a method by its number, from 0: the methods stand behind the actions.
pub fn method_rows(shop: &[u16], tables: &[u16], method: u16) -> MethodRows
    requires { (order : List ℕ) × Indexed shop.now order tables.now × (method < method_count shop.now) }
    ensures { (order : List ℕ) → Indexed shop.now order tables.now → MethodAt shop.now order tables.now method result }
{
    let actions = word(shop, ShopSizes::ACTIONS) as usize;
    let at = Tables::STARTS + actions + method as usize;
    let from = tables[at];
    MethodRows {
        from: Row(from),
        first: Row(tables[from as usize]),
        end: Row(tables[at + 1]),
    }
}

// The nodes from row `first` up to row `end`.
pub fn nodes_between(tables: &[u16], first: Row, end: Row) -> Nodes
    requires { (bs : List Bounds) × Walk tables.now end.0 first.0 bs × (length bs ≤ most_rows) }
    ensures { (bs : List Bounds) → Walk tables.now end.0 first.0 bs → NodesCounted end.0 bs result }
{
    let stop = end.0;
    let mut count = 0;
    let mut last = first.0;
    let mut row = first.0;
    while row < stop {
        last = row;
        count += 1;
        row = tables[row as usize];
    }
    Nodes {
        count,
        last: Row(last),
    }
}
