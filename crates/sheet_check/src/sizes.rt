// The sizes that a sheet begins with, by name: only this file says in which word each stands. Document 01, "The three sheets".
ghost use Rattle.std.specs.Prelude.{◌≡◌};
ghost use Rattle.hgn.specs.Shop as ShopSheet;
ghost use Rattle.hgn.specs.Order as OrderSheet;
ghost use Rattle.sheet_check.specs.Sizes.{ShopSized, OrderSized, TraceSized};

use crate::check::{Order, Shop};
use crate::rows::{Layout, word};

// Each sheet has a struct of its own: the words that they name differ, and a trait over them would list these words a second time.

// A shop sheet begins with F, K, M and N.
#[derive(Clone, Copy)]
pub struct ShopSizes {
    pub atoms: u16,
    pub actions: u16,
    pub methods: u16,
    pub rows: u16,
}

// An order sheet begins with F, G and N.
#[derive(Clone, Copy)]
pub struct OrderSizes {
    pub atoms: u16,
    pub goals: u16,
    pub rows: u16,
}

// A trace begins with L.
#[derive(Clone, Copy)]
pub struct TraceSizes {
    pub steps: u16,
}

impl ShopSizes {
    // The word in which each stands.
    pub const ATOMS: usize = 0;

    pub const ACTIONS: usize = 1;

    pub const METHODS: usize = 2;

    pub const ROWS: usize = 3;

    // Reads them from a sheet. One that a sheet is too short to have is 0.
    pub fn of(shop: &[u16]) -> ShopSizes
        ensures { ShopSized shop.now result }
    {
        ShopSizes {
            atoms: word(shop, ShopSizes::ATOMS),
            actions: word(shop, ShopSizes::ACTIONS),
            methods: word(shop, ShopSizes::METHODS),
            rows: word(shop, ShopSizes::ROWS),
        }
    }

    // Where the rows of such a sheet stand.
    pub fn layout(self) -> Layout
        ensures { (result.sizes ≡ ShopSheet.size_words) × (result.rows ≡ self.rows) }
    {
        Layout {
            sizes: Shop::SIZES,
            rows: usize::from(self.rows),
        }
    }
}

impl OrderSizes {
    // The word in which each stands.
    pub const ATOMS: usize = 0;

    pub const GOALS: usize = 1;

    pub const ROWS: usize = 2;

    // Reads them from a sheet. One that a sheet is too short to have is 0.
    pub fn of(order: &[u16]) -> OrderSizes
        ensures { OrderSized order.now result }
    {
        OrderSizes {
            atoms: word(order, OrderSizes::ATOMS),
            goals: word(order, OrderSizes::GOALS),
            rows: word(order, OrderSizes::ROWS),
        }
    }

    // Where the rows of such a sheet stand.
    pub fn layout(self) -> Layout
        ensures { (result.sizes ≡ OrderSheet.size_words) × (result.rows ≡ self.rows) }
    {
        Layout {
            sizes: Order::SIZES,
            rows: usize::from(self.rows),
        }
    }
}

impl TraceSizes {
    // The word in which it stands.
    pub const STEPS: usize = 0;

    // Reads it from a trace. Of a trace that has no word it is 0.
    pub fn of(trace: &[u16]) -> TraceSizes
        ensures { TraceSized trace.now result }
    {
        TraceSizes {
            steps: word(trace, TraceSizes::STEPS),
        }
    }
}
