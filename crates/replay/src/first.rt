// The first record of a run, from the order sheet. Document 01, "How a derivation runs": at first the state is the atoms of the
// order's 12 rows, and the waiting list holds the order's goals in listed order.
ghost use Rattle.std.specs.Prelude.{◌≡◌, suc, ◌+◌, ◌≤◌, length};
ghost use Rattle.hgn.specs.Rows.{most_rows};
ghost use Rattle.hgn.specs.Shop.{most_actions, most_methods};
ghost use Rattle.hgn.specs.Run.{start_of};
ghost use Rattle.hgn.specs.Order as OrderSheet;
ghost use Rattle.hgn.specs.Questions.{passed};
ghost use Rattle.sheet_index.specs.Tables.{Indexed};
ghost use Rattle.sheet_index.specs.declared.index.Span.{Span};
ghost use Rattle.replay.specs.OrderTable.{OrderIndexed, first_row};
ghost use Rattle.replay.specs.Running.{FirstGoals, Prepared};

use network::entering::Entering;
use network::goals::Goals;
use sheet_check::check::{Order, Shop};
use sheet_check::rows::{Row, word};
use sheet_check::sizes::{OrderSizes, ShopSizes};
use sheet_index::index;
use sheet_index::index::Span;
use sheet_rows::position::Sheet;
use sheet_rows::tag;
use state::atoms;
use state::atoms::State;
use step::problem::Problem;

// The row at which the order's first node begins, or its end. If row 0 is no node, it belongs to no part, and the table says where the
// next part begins.
fn first_node(order: &[u16], tables: &[u16]) -> Row
    ensures { result.0 ≡ first_row order.now tables.now }
{
    if word(order, OrderSizes::ROWS) == 0 || word(order, Order::SIZES) == tag::NODE {
        return Row(0);
    }
    Row(word(tables, 0))
}

// The first state, the atoms true at the start, is written into lent atoms, over what stood there.
pub fn write_start(shop: &[u16], order: &[u16], atoms: &mut [bool; Shop::MOST_ATOMS as usize])
    requires { OrderSheet.check_order shop.now order.now ≡ passed }
    ensures { atoms.new ≡ start_of (OrderSheet.order order.now) }
{
    let rows = Span {
        sheet: Sheet::Order,
        from: Row(0),
        to: Row(word(order, OrderSizes::ROWS)),
    };
    *atoms = [false; Shop::MOST_ATOMS as usize];
    atoms::assign(atoms, rows.rows(shop, order), tag::TRUE_AT_START, true);
}

// The same, as a value.
pub fn start(shop: &[u16], order: &[u16]) -> [bool; Shop::MOST_ATOMS as usize]
    requires { OrderSheet.check_order shop.now order.now ≡ passed }
    ensures { result ≡ start_of (OrderSheet.order order.now) }
{
    let mut atoms = State::empty().atoms;
    write_start(shop, order, &mut atoms);
    atoms
}

// The table of the order, for its goals.
fn index_order(shop: &[u16], order: &[u16], tables: &mut [u16])
    requires { (OrderSheet.check_order shop.now order.now ≡ passed) × (most_rows + suc (most_actions + most_methods) ≤ length tables.old) }
    ensures { OrderIndexed shop.now order.now tables.new × (length tables.new ≡ length tables.old) }
{
    let rows = index::layout_of(Sheet::Order, order);
    index::fill_tables(order, rows, tables, 0);
}

// The table of the shop.
fn index_shop(shop: &[u16], order: &[u16], tables: &mut [u16])
    requires { (OrderSheet.check_order shop.now order.now ≡ passed) × (most_rows + suc (most_actions + most_methods) ≤ length tables.old) }
    ensures { Indexed shop.now order.now tables.new }
{
    let sizes = ShopSizes::of(shop);
    let operators = sizes.actions as usize + sizes.methods as usize;
    let rows = index::layout_of(Sheet::Shop, shop);
    index::fill_tables(shop, rows, tables, operators);
}

// The order's goals, in listed order, are all that waits.
fn write_goals(shop: &[u16], order: &[u16], tables: &[u16], goals: &mut Goals)
    requires { OrderIndexed shop.now order.now tables.now }
    ensures { FirstGoals shop.now order.now goals.new }
{
    let sizes = OrderSizes::of(order);
    let network = Entering {
        source: None,
        first: first_node(order, tables),
        end: Row(sizes.rows),
        count: sizes.goals,
    };
    goals.begin(shop, order, tables, network);
}

// The order's goals are all that waits, and the table is filled: first the order's, for its goals, then the shop's.
pub fn begun(shop: &[u16], order: &[u16], tables: &mut [u16], goals: &mut Goals)
    requires order_value { OrderSheet.check_order shop.now order.now ≡ passed }
    requires most_methods_in_bounds { most_rows + suc (most_actions + most_methods) ≤ length tables.old }
    ensures { Indexed shop.now order.now tables.new × FirstGoals shop.now order.now goals.new }
{
    index_order(shop, order, tables);
    write_goals(shop, order, tables, goals);
    index_shop(shop, order, tables);
}

// The first record, with the shop's table filled.
pub fn prepared(shop: &[u16], order: &[u16], tables: &mut [u16]) -> Problem
    requires order_value { OrderSheet.check_order shop.now order.now ≡ passed }
    requires most_methods_in_bounds { most_rows + suc (most_actions + most_methods) ≤ length tables.old }
    ensures { Prepared shop.now order.now tables.new result }
{
    let mut goals = Goals::empty();
    begun(shop, order, tables, &mut goals);
    Problem {
        atoms: start(shop, order),
        waiting: goals,
    }
}
