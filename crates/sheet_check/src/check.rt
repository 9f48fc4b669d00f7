// The three checks: the first question that is answered no, with its place, is the refusal. Document 01, "Questions".
ghost use Rattle.std.specs.Prelude.{◌≡◌};
ghost use Rattle.hgn.specs.Shop.{check_shop};
ghost use Rattle.hgn.specs.Order.{order_questions, check_order};
ghost use Rattle.hgn.specs.Trace.{trace_questions, check_trace};
ghost use Rattle.hgn.specs.Questions.{first_no, answered};
ghost use Rattle.sheet_rows.specs.Refusals.{answer_of};
ghost use Rattle.sheet_check.specs.Answers.{ShopInRange, OrderInRange, ShopEnds, OrderEnds};

use crate::rows::{Layout, Scan};
use crate::sizes::{OrderSizes, ShopSizes, TraceSizes};
use sheet_rows::position::Sheet;
use sheet_rows::refusal::{Question, Refusal};

// What a shop sheet may hold.
#[derive(Clone, Copy)]
pub struct Shop;

impl Shop {
    pub const SIZES: usize = 4;

    pub const MOST_ATOMS: u16 = 256;

    pub const MOST_ACTIONS: u16 = 255;

    pub const MOST_METHODS: u16 = 255;

    // Actions and methods together.
    pub const MOST_OPERATORS: usize = Shop::MOST_ACTIONS as usize + Shop::MOST_METHODS as usize;
}

// What an order sheet may hold.
#[derive(Clone, Copy)]
pub struct Order;

impl Order {
    pub const SIZES: usize = 3;

    pub const MOST_GOALS: u16 = 64;
}

// What a trace may hold.
#[derive(Clone, Copy)]
pub struct Trace;

impl Trace {
    pub const SIZES: usize = 1;

    pub const MOST_STEPS: u16 = 4096;
}

// F, K, M and N of a shop sheet are in range.
fn shop_in_range(sizes: ShopSizes) -> bool
    ensures { ShopInRange sizes result }
{
    (1..=Shop::MOST_ATOMS).contains(&sizes.atoms)
        && sizes.actions <= Shop::MOST_ACTIONS
        && sizes.methods <= Shop::MOST_METHODS
        && sizes.rows <= Layout::MOST_ROWS
}

// F of an order sheet is the shop's, and G and N are in range.
fn order_in_range(shop: ShopSizes, sizes: OrderSizes) -> bool
    ensures { OrderInRange shop sizes result }
{
    sizes.atoms == shop.atoms && sizes.goals <= Order::MOST_GOALS && sizes.rows <= Layout::MOST_ROWS
}

// What is asked of a shop sheet after its rows.
fn shop_end(scan: Scan, sizes: ShopSizes) -> Result<(), Refusal>
    ensures { ShopEnds scan sizes result }
{
    if !scan.position.context.may_end() {
        return Err(Refusal::by(Question::ShopEnd));
    }
    if scan.counts.actions != sizes.actions || scan.counts.methods != sizes.methods {
        return Err(Refusal::by(Question::ShopCounts));
    }
    match scan.counts.closed().offender {
        Some(method) => Err(Refusal::by(Question::MethodNodes).at(method)),
        None => Ok(()),
    }
}

// What is asked of an order sheet after its rows.
fn order_end(scan: Scan, sizes: OrderSizes) -> Result<(), Refusal>
    ensures { OrderEnds scan sizes result }
{
    if !scan.position.context.may_end() {
        return Err(Refusal::by(Question::OrderEnd));
    }
    if scan.position.nodes != sizes.goals {
        return Err(Refusal::by(Question::OrderCounts));
    }
    Ok(())
}

// Questions 1 to 9.
pub fn check_shop(shop: &[u16]) -> Result<(), Refusal>
    ensures { answer_of result ≡ answered (check_shop shop.now) }
{
    if shop.len() < Shop::SIZES {
        return Err(Refusal::by(Question::ShopTooShort));
    }
    let sizes = ShopSizes::of(shop);
    if !shop_in_range(sizes) {
        return Err(Refusal::by(Question::ShopSizes));
    }
    let layout = sizes.layout();
    if shop.len() != layout.sizes + 2 * layout.rows {
        return Err(Refusal::by(Question::ShopLength));
    }
    let scan = layout.scan(shop, Sheet::Shop, sizes.atoms)?;
    shop_end(scan, sizes)
}

// Questions 11 to 18, of an order sheet; the shop sheet is asked before.
pub fn ask_order(shop: &[u16], order: &[u16]) -> Result<(), Refusal>
    ensures { answer_of result ≡ answered (first_no (order_questions shop.now order.now)) }
{
    if order.len() < Order::SIZES {
        return Err(Refusal::by(Question::OrderTooShort));
    }
    let sizes = OrderSizes::of(order);
    if !order_in_range(ShopSizes::of(shop), sizes) {
        return Err(Refusal::by(Question::OrderSizes));
    }
    let layout = sizes.layout();
    if order.len() != layout.sizes + 2 * layout.rows {
        return Err(Refusal::by(Question::OrderLength));
    }
    let scan = layout.scan(order, Sheet::Order, sizes.atoms)?;
    order_end(scan, sizes)
}

// Questions 21 to 23.
fn ask_trace(trace: &[u16]) -> Result<(), Refusal>
    ensures { answer_of result ≡ answered (first_no (trace_questions trace.now)) }
{
    if trace.len() < Trace::SIZES {
        return Err(Refusal::by(Question::TraceTooShort));
    }
    let sizes = TraceSizes::of(trace);
    if sizes.steps > Trace::MOST_STEPS {
        return Err(Refusal::by(Question::TraceSteps));
    }
    if trace.len() != Trace::SIZES + 2 * usize::from(sizes.steps) {
        return Err(Refusal::by(Question::TraceLength));
    }
    Ok(())
}

// The shop sheet, then the order sheet.
pub fn check_order(shop: &[u16], order: &[u16]) -> Result<(), Refusal>
    ensures { answer_of result ≡ answered (check_order shop.now order.now) }
{
    check_shop(shop)?;
    ask_order(shop, order)
}

// The shop sheet, the order sheet, then the trace.
pub fn check_trace(shop: &[u16], order: &[u16], trace: &[u16]) -> Result<(), Refusal>
    ensures { answer_of result ≡ answered (check_trace shop.now order.now trace.now) }
{
    check_order(shop, order)?;
    ask_trace(trace)
}
