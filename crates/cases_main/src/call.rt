// The calls that a case can name: the public ones, the display's and the listing's. A case gives each the parts that it takes; where it
// takes D, or a second order, that stands in the trace's place.
ghost use Rattle.cases_main.specs.Names.{NamedBy};

use crate::stepping::View;
use crate::{joined, line, listed, replayed, room, searched, sheet, stepping};
use sheet_check::check::{check_order, check_shop, check_trace};

#[derive(Clone, Copy)]
pub enum Call {
    Shop,
    Order,
    Trace,
    Replay,
    Search,
    Join,
    Display,
    Listing,
    Goals,
}

impl Call {
    // The call of this name, if there is one.
    pub fn named(name: &[u8]) -> Option<Call>
        ensures { NamedBy name.now result }
    {
        match name {
            b"shop" => Some(Call::Shop),
            b"order" => Some(Call::Order),
            b"trace" => Some(Call::Trace),
            b"replay" => Some(Call::Replay),
            b"search" => Some(Call::Search),
            b"join" => Some(Call::Join),
            b"display" => Some(Call::Display),
            b"listing" => Some(Call::Listing),
            b"goals" => Some(Call::Goals),
            _ => None,
        }
    }

    // How many sizes the part in the trace's place begins with.
    fn third_sizes(self) -> u16 {
        match self {
            Call::Join => sheet::ORDER,
            _ => sheet::TRACE,
        }
    }

    fn write_answer(
        self,
        rt: &impl Print,
        shop: &[u16],
        order: &[u16],
        trace: &[u16],
        room: &mut [u16],
    ) {
        match self {
            Call::Shop => line::verdict(rt, check_shop(shop)),
            Call::Order => line::verdict(rt, check_order(shop, order)),
            Call::Trace => line::verdict(rt, check_trace(shop, order, trace)),
            Call::Replay => replayed::write(rt, shop, order, trace, room),
            Call::Search => searched::write(rt, shop, order, trace, room),
            Call::Join => joined::write(rt, shop, order, trace, room),
            Call::Display => stepping::write(rt, shop, order, trace, View::Steps),
            Call::Listing => listed::write(rt, shop, order, trace, room),
            Call::Goals => stepping::write(rt, shop, order, trace, View::Goals),
        }
    }

    // The call on what the texts say. Each sheet is made by a function of its own: one with three rooms takes longer to prove.
    pub fn run(self, rt: &impl Print, shop: &[u8], order: &[u8], trace: &[u8], room: &[u8]) {
        let mut words = [0u16; sheet::ROOM];
        let length = sheet::write(&mut words, sheet::SHOP, shop);
        self.run_on_shop(rt, &words[..length], order, trace, room);
    }

    fn run_on_shop(self, rt: &impl Print, shop: &[u16], order: &[u8], trace: &[u8], room: &[u8]) {
        let mut words = [0u16; sheet::ROOM];
        let length = sheet::write(&mut words, sheet::ORDER, order);
        self.run_on_order(rt, shop, &words[..length], trace, room);
    }

    fn run_on_order(self, rt: &impl Print, shop: &[u16], order: &[u16], trace: &[u8], room: &[u8]) {
        let mut words = [0u16; sheet::ROOM];
        let length = sheet::write(&mut words, self.third_sizes(), trace);
        self.run_on_trace(rt, shop, order, &words[..length], room);
    }

    fn run_on_trace(
        self,
        rt: &impl Print,
        shop: &[u16],
        order: &[u16],
        trace: &[u16],
        room: &[u8],
    ) {
        let mut words = [0u16; room::MOST];
        room::fill(&mut words);
        let length = room::length_of(room);
        self.write_answer(rt, shop, order, trace, &mut words[..length]);
    }
}
