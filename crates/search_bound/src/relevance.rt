// Which method alone has a node to which an action is relevant, and whether an action is relevant to a waiting goal.
ghost use Rattle.std.specs.Prelude.{◌≡◌, List, ◌<◌, IfSome};
ghost use Rattle.hgn.specs.Tag as Tag;
ghost use Rattle.hgn.specs.Lists.{any};
ghost use Rattle.hgn.specs.Meaning.{literals};
ghost use Rattle.hgn.specs.State.{relevant};
ghost use Rattle.hgn.specs.Run.{action_at, method_at};
ghost use Rattle.hgn.specs.Shop.{domain, method_count};
ghost use Rattle.hgn.specs.Replay.{rules_of};
ghost use Rattle.sheet_index.specs.Index.{rows_in};
ghost use Rattle.sheet_index.specs.Tables.{Bounds, Walk, Indexed};
ghost use Rattle.network.specs.Goals.{list_in};
ghost use Rattle.search_theory.specs.Needed.{OnlyMethod};
ghost use Rattle.search_bound.specs.Tables.{bound_relevant, ActionOf};

use network::goals::Goals;
use network::waiting::Place;
use sheet_check::rows::Row;
use sheet_check::sizes::ShopSizes;
use sheet_index::index::Span;
use sheet_index::operators;
use sheet_index::operators::MethodRows;
use sheet_index::rows::Rows;
use state::literals::LiteralTags;
use state::parts;

// The effects among these rows are relevant to a node of the method with those.
fn has_node_for(
    shop: &[u16],
    order: &[u16],
    tables: &[u16],
    method: MethodRows,
    effects: Rows,
) -> bool
    requires { (bs : List Bounds) × Walk tables.now method.end.0 method.first.0 bs }
    ensures { (bs : List Bounds) → Walk tables.now method.end.0 method.first.0 bs
        → result ≡ any (bound_relevant shop.now order.now effects.entry) bs }
{
    let mut row = method.first.0;
    // The table says where the next node begins, so no count says how far a turn goes.
    while row < method.end.0 {
        let from = row;
        row = tables[from as usize];
        let node = Span::of_shop(Row(from), Row(row));
        if parts::relevant_to(shop, order, effects, LiteralTags::EFFECTS, node) {
            return true;
        }
    }
    false
}

// The effects among these rows are relevant to a node of the method.
fn method_has(shop: &[u16], order: &[u16], tables: &[u16], effects: Rows, method: u16) -> bool
    requires { Indexed shop.now order.now tables.now × (method < method_count shop.now) }
    ensures { result ≡ any (λ n. relevant (literals Tag.makes_true Tag.makes_false (rows_in effects.entry))
        n.formula) (method_at (domain shop.now) method).nodes }
{
    let rows = operators::method_rows(shop, tables, method);
    has_node_for(shop, order, tables, rows, effects)
}

// The method that alone has a node to which this action is relevant, if one does.
pub fn only_method(shop: &[u16], order: &[u16], tables: &[u16], action: u16) -> Option<u16>
    requires { ActionOf shop.now order.now tables.now action }
    ensures { IfSome result (λ m. (m < method_count shop.now) × OnlyMethod (rules_of shop.now) action m) }
{
    let effects = operators::action_part(shop, tables, action);
    let mut found = None;
    for method in 0..ShopSizes::of(shop).methods {
        if method_has(shop, order, tables, effects, method) {
            if found.is_some() {
                return None;
            }
            found = Some(method);
        }
    }
    found
}

// The action is relevant to some waiting goal.
pub fn wanted_by(shop: &[u16], order: &[u16], tables: &[u16], goals: &Goals, action: u16) -> bool
    requires { ActionOf shop.now order.now tables.now action }
    ensures { result ≡ any (λ g. relevant (action_at (domain shop.now) action).effects g.formula)
        (list_in shop.now order.now goals.now) }
{
    let rows = operators::action_part(shop, tables, action);
    for i in 0..goals.len() {
        let goal = goals.entry_at(Place(i));
        if parts::relevant_to(shop, order, rows, LiteralTags::EFFECTS, goal.rows) {
            return true;
        }
    }
    false
}
