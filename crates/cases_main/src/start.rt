// Where the run of an order starts: its first record, and the tables of the sheets.
ghost use Rattle.std.specs.Prelude.{◌≡◌};
ghost use Rattle.hgn.specs.Order.{check_order};
ghost use Rattle.hgn.specs.Questions.{passed};
ghost use Rattle.replay.specs.Running.{Prepared};

use replay::first;
use sheet_index::index::Tables;
use step::problem::Problem;

#[derive(Clone, Copy)]
pub struct Start {
    pub tables: [u16; Tables::WORDS],
    pub problem: Problem,
}

impl Start {
    pub fn of(shop: &[u16], order: &[u16]) -> Start
        requires { check_order shop.now order.now ≡ passed }
        ensures { Prepared shop.now order.now result.tables result.problem }
    {
        let mut tables = [0u16; Tables::WORDS];
        let problem = first::prepared(shop, order, &mut tables);
        Start { tables, problem }
    }
}
