// The display program: reads the files `shop`, `order` and `trace` of the current folder, steps through the trace on the display and prints each
// moment, that is, which atoms are true and which goals wait. Document 01, "How a derivation runs".
#![tactic(auto)]

mod answer;
mod line;
mod moment;
mod turn;

use sheet_files::file;

// A file that can't be read ends the program with nothing on standard output: its line on standard error is the answer.
fn main(rt: HostRuntime) {
    let mut shop = [0u8; file::SHOP_BYTES];
    let mut order = [0u8; file::ORDER_BYTES];
    let mut trace = [0u8; file::TRACE_BYTES];
    let Some(shop) = file::read(&rt, b"display", b"shop", &mut shop) else {
        return;
    };
    let Some(order) = file::read(&rt, b"display", b"order", &mut order) else {
        return;
    };
    let Some(trace) = file::read(&rt, b"display", b"trace", &mut trace) else {
        return;
    };
    answer::display(&rt, shop, order, trace);
}
