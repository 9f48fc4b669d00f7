// What is lent to a search.
ghost use Rattle.search.specs.Lents.{Lent, Lent-prop};

use network::goals::Goals;
use search_bound::achievers::Table;
use sheet_check::check::Shop;

// What never changes in a search: the sheets, where their parts stand, and which action alone achieves a literal.
#[derive(Clone, Copy)]
pub struct Given<'a> {
    pub shop: &'a [u16],
    pub order: &'a [u16],
    pub tables: &'a [u16],
    pub table: &'a Table,
    pub ghost lent: { Lent shop.now order.now tables.now table.now } by { Lent-prop shop.now order.now tables.now table.now },
}

// A state, and the goals that wait in it.
#[derive(Clone, Copy)]
pub struct Moment<'a> {
    pub atoms: &'a [bool; Shop::MOST_ATOMS as usize],
    pub goals: &'a Goals,
}
