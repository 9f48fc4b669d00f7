// The tests on a waiting goal's rows, which are handed back as parts of the lent sheets. Document 01, "How a derivation runs".
ghost use Rattle.std.specs.Prelude.{◌≡◌};
ghost use Rattle.hgn.specs.Meaning.{literals, node_of};
ghost use mathlib.Core.List.{flatten};
ghost use Rattle.hgn.specs.State.{formula_holds, relevant};
ghost use Rattle.hgn.specs.Relevance.{relevance};
ghost use Rattle.sheet_index.specs.Index.{span_rows, rows_in};
ghost use Rattle.state.specs.Relevances.{relevance_of};
ghost use Rattle.state.specs.Tests.{GoalTested};

use crate::literals::LiteralTags;
use crate::relevance::Relevance;
use crate::{literals, relevance};
use sheet_check::check::Shop;
use sheet_index::index::Span;
use sheet_index::rows::Rows;
use sheet_rows::position::Atom;

// The formula of a node with these rows holds; else the atom of the first row that is not as wanted.
pub fn test_goal(
    atoms: &[bool; Shop::MOST_ATOMS as usize],
    shop: &[u16],
    order: &[u16],
    rows: Span,
) -> Result<(), Atom>
    ensures { GoalTested atoms.now (node_of (span_rows shop.now order.now rows)).formula result }
{
    literals::test_formula(atoms, rows.rows(shop, order))
}

// The formula of a node with these rows holds.
pub fn goal_holds(
    atoms: &[bool; Shop::MOST_ATOMS as usize],
    shop: &[u16],
    order: &[u16],
    rows: Span,
) -> bool
    ensures { result ≡ formula_holds atoms.now (node_of (span_rows shop.now order.now rows)).formula }
{
    test_goal(atoms, shop, order, rows).is_ok()
}

// What these effects do to what a node with those rows wants.
pub fn relevance_to(
    shop: &[u16],
    order: &[u16],
    effects: Rows,
    signs: LiteralTags,
    goal: Span,
) -> Relevance
    ensures { relevance_of result ≡ relevance (literals signs.positive signs.negative (rows_in effects.entry))
        (flatten (node_of (span_rows shop.now order.now goal)).formula) }
{
    relevance::relevance_to_node(effects, signs, goal.rows(shop, order))
}

// These effects are relevant to a node with those rows.
pub fn relevant_to(
    shop: &[u16],
    order: &[u16],
    effects: Rows,
    signs: LiteralTags,
    goal: Span,
) -> bool
    ensures { result ≡ relevant (literals signs.positive signs.negative (rows_in effects.entry))
        (node_of (span_rows shop.now order.now goal)).formula }
{
    relevance_to(shop, order, effects, signs, goal).is_helping()
}
