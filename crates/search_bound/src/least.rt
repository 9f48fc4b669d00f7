// The moves that every accepted trace makes, and the steps that they take.
ghost use Rattle.std.specs.Prelude.{◌≡◌, true, ℕ, ◌<◌, MatchOption};
ghost use mathlib.Core.List.{[], ◌∷◌};
ghost use Rattle.std.proofs.Math.Option.{none};
ghost use Rattle.hgn.specs.Tag as Tag;
ghost use Rattle.hgn.specs.Rows.{row};
ghost use Rattle.hgn.specs.Meaning.{literals, node_of};
ghost use Rattle.hgn.specs.State.{State};
ghost use Rattle.hgn.specs.Run as Run;
ghost use Rattle.hgn.specs.Shop.{domain};
ghost use Rattle.hgn.specs.Replay.{rules_of};
ghost use Rattle.sheet_index.specs.Index.{span_rows, rows_in};
ghost use Rattle.sheet_index.specs.Tables.{Indexed};
ghost use Rattle.state.specs.Literals.{literal_of};
ghost use Rattle.step.specs.Taking.{problem_with};
ghost use Rattle.search_theory.specs.Pruned.{pruned_of};
ghost use Rattle.search_bound.specs.Tables.{OnlyAchievers, OperatorOf};
ghost use Rattle.search_bound.specs.NeededMoves.{Holds, move_of_operator, Wanted, WantedAll, WantedFormula, WithAchievers, WithGoals, Onward, OnwardFrom};

use crate::achievers::{Achievers, Table};
use crate::needed_moves::NeededMoves;
use crate::relevance;
use network::goals::Goals;
use network::waiting::Place;
use sheet_check::check::Shop;
use sheet_check::rows::Row;
use sheet_check::sizes::ShopSizes;
use sheet_index::index::Span;
use sheet_index::operators;
use sheet_index::rows::Rows;
use sheet_rows::tag;
use state::atoms;
use state::literals::{Literal, LiteralTags};

// The only action that achieves a literal is added, if the literal does not hold. Where no action achieves it, no trace is accepted.
fn add_achiever(
    moves: &mut NeededMoves,
    atoms: &[bool; Shop::MOST_ATOMS as usize],
    table: &Table,
    actions: u16,
    literal: Literal,
)
    ensures { WithAchievers (Wanted (literal_of literal)) atoms.now table.now actions
        moves.old moves.new }
{
    if Shop::MOST_ATOMS <= literal.atom.0 || atoms::holds(atoms, literal.atom, literal.sign) {
        return;
    }
    match table.achievers_of(literal) {
        Achievers::None => moves.give_up(),
        Achievers::Only(operator) if u16::from(operator) < actions => {
            moves.add(u16::from(operator), 1);
        }
        _ => {}
    }
}

// The only achiever of the row's literal is added, if the row has one: its tag is one of these two.
fn add_row(
    moves: &mut NeededMoves,
    atoms: &[bool; Shop::MOST_ATOMS as usize],
    table: &Table,
    actions: u16,
    tag: u16,
    value: u16,
    signs: LiteralTags,
)
    ensures { WithAchievers (WantedAll (literals signs.positive signs.negative (row tag value ∷ []))) atoms.now table.now actions
        moves.old moves.new }
{
    if let Some(literal) = signs.literal(tag, value) {
        add_achiever(moves, atoms, table, actions, literal);
    }
}

// The only achievers of the literals of the rows with these two tags are added.
fn add_rows(
    moves: &mut NeededMoves,
    atoms: &[bool; Shop::MOST_ATOMS as usize],
    table: &Table,
    actions: u16,
    rows: Rows,
    signs: LiteralTags,
)
    ensures { WithAchievers (WantedAll (literals signs.positive signs.negative (rows_in rows.entry))) atoms.now table.now actions
        moves.old moves.new }
{
    for (tag, value) in rows.iter() {
        add_row(moves, atoms, table, actions, *tag, *value, signs);
    }
}

// The rows of a node have one alternative, and nothing is wanted before it.
fn one_alternative(node: Rows) -> bool
    ensures { result ≡ true → (node_of (rows_in node.entry)).formula
        ≡ literals Tag.wanted_true Tag.wanted_false (rows_in node.entry) ∷ [] }
{
    let mut found = false;
    for (tag, _) in node.iter() {
        if *tag == tag::ALTERNATIVE {
            if found {
                return false;
            }
            found = true;
        } else if !found && (*tag == tag::WANTED_TRUE || *tag == tag::WANTED_FALSE) {
            return false;
        }
    }
    found
}

// The only achievers of what a goal wants are added, if it has one alternative: then its literals stand in every one.
fn add_goal(
    moves: &mut NeededMoves,
    shop: &[u16],
    order: &[u16],
    atoms: &[bool; Shop::MOST_ATOMS as usize],
    table: &Table,
    actions: u16,
    goal: Span,
)
    ensures { WithAchievers (WantedFormula (node_of (span_rows shop.now order.now goal)).formula) atoms.now table.now actions
        moves.old moves.new }
{
    let rows = goal.rows(shop, order);
    if one_alternative(rows) {
        add_rows(moves, atoms, table, actions, rows, LiteralTags::WANTED);
    }
}

// The only achievers of what the waiting goals want are added.
fn add_goals(
    moves: &mut NeededMoves,
    shop: &[u16],
    order: &[u16],
    atoms: &[bool; Shop::MOST_ATOMS as usize],
    table: &Table,
    actions: u16,
    goals: &Goals,
)
    ensures { WithGoals (problem_with shop.now order.now atoms.now goals.now) table.now actions
        moves.old moves.new }
{
    for i in 0..goals.len() {
        let goal = goals.entry_at(Place(i));
        add_goal(moves, shop, order, atoms, table, actions, goal.rows);
    }
}

// The only achievers of what an operator needs are added.
fn add_needs(
    moves: &mut NeededMoves,
    shop: &[u16],
    order: &[u16],
    tables: &[u16],
    atoms: &[bool; Shop::MOST_ATOMS as usize],
    table: &Table,
    operator: u16,
)
    requires { OperatorOf shop.now order.now tables.now table.now operator }
    ensures { OnwardFrom (rules_of shop.now) atoms.now (move_of_operator (domain shop.now) operator)
        moves.old moves.new }
{
    let actions = ShopSizes::of(shop).actions;
    let rows = operators::operator_rows(tables, operator).rows(shop, order);
    add_rows(moves, atoms, table, actions, rows, LiteralTags::NEEDS);
}

// The only achievers of what a method's nodes want are added; an action has no nodes.
fn add_nodes(
    moves: &mut NeededMoves,
    shop: &[u16],
    order: &[u16],
    tables: &[u16],
    atoms: &[bool; Shop::MOST_ATOMS as usize],
    table: &Table,
    operator: u16,
)
    requires { OperatorOf shop.now order.now tables.now table.now operator }
    ensures { OnwardFrom (rules_of shop.now) atoms.now (move_of_operator (domain shop.now) operator)
        moves.old moves.new }
{
    let actions = ShopSizes::of(shop).actions;
    if operator < actions {
        return;
    }
    let rows = operators::method_rows(shop, tables, operator - actions);
    let mut row = rows.first.0;
    // The table says where the next node begins, so no count says how far a turn goes.
    while row < rows.end.0 {
        let from = row;
        row = tables[from as usize];
        let node = Span::of_shop(Row(from), Row(row));
        add_goal(moves, shop, order, atoms, table, actions, node);
    }
}

// For an action that is relevant to no waiting goal, the only method that can bring in a goal to which it is relevant is added.
fn add_method(
    moves: &mut NeededMoves,
    shop: &[u16],
    order: &[u16],
    tables: &[u16],
    goals: &Goals,
    operator: u16,
)
    requires { Indexed shop.now order.now tables.now }
    ensures { (s : State) → Onward (rules_of shop.now) (problem_with shop.now order.now s goals.now)
        (move_of_operator (domain shop.now) operator) moves.old moves.new }
{
    let actions = ShopSizes::of(shop).actions;
    if actions <= operator {
        return;
    }
    let action = operator + 1;
    if relevance::wanted_by(shop, order, tables, goals, action) {
        return;
    }
    if let Some(method) = relevance::only_method(shop, order, tables, action) {
        let rows = operators::method_rows(shop, tables, method);
        let nodes = operators::nodes_between(tables, rows.first, rows.end);
        moves.add(actions + method, 1 + nodes.count);
    }
}

// What every gathered operator brings with it is added, also for those that are added on the way. It ends early where no trace is accepted.
fn close(
    moves: &mut NeededMoves,
    shop: &[u16],
    order: &[u16],
    tables: &[u16],
    atoms: &[bool; Shop::MOST_ATOMS as usize],
    table: &Table,
    goals: &Goals,
)
    requires indexed { Indexed shop.now order.now tables.now × OnlyAchievers (domain shop.now) table.now }
    requires within { Holds (rules_of shop.now) (problem_with shop.now order.now atoms.now goals.now) moves.old }
    ensures { Holds (rules_of shop.now) (problem_with shop.now order.now atoms.now goals.now)
        moves.new }
{
    let mut at = 0;
    // The list grows while it is worked, so no range says how far it goes.
    while at < moves.count() && !moves.is_hopeless() {
        let operator = moves.operator_at(at);
        at += 1;
        add_needs(moves, shop, order, tables, atoms, table, operator);
        add_nodes(moves, shop, order, tables, atoms, table, operator);
        add_method(moves, shop, order, tables, goals, operator);
    }
}

// No accepted trace has fewer steps: a release for each goal that waits, and what the needed moves take. `None` where no trace is accepted,
// since a literal that every accepted trace makes true is achieved by no action.
pub fn at_least(
    shop: &[u16],
    order: &[u16],
    tables: &[u16],
    table: &Table,
    atoms: &[bool; Shop::MOST_ATOMS as usize],
    goals: &Goals,
) -> Option<u16>
    requires { Indexed shop.now order.now tables.now × OnlyAchievers (domain shop.now) table.now }
    ensures { (k : ℕ) → MatchOption result (Unit {0}) (λ least. k < least) → (P₀ : Run.Problem) (y : Run.Step) (n : ℕ)
        → pruned_of k (rules_of shop.now) P₀ y n (problem_with shop.now order.now atoms.now goals.now) ≡ none }
{
    let actions = ShopSizes::of(shop).actions;
    let mut moves = NeededMoves::new();
    add_goals(&mut moves, shop, order, atoms, table, actions, goals);
    close(&mut moves, shop, order, tables, atoms, table, goals);
    if moves.is_hopeless() {
        None
    } else {
        Some(goals.len() + moves.steps())
    }
}
