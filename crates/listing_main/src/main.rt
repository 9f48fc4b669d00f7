// The listing program: reads the files `shop`, `order` and `trace` of the current folder and prints the derivation as an indented tree, or of a
// refused trace the line with which the replay program's answer begins. Document 02, Req 03.
#![tactic(auto)]

mod answer;
mod line;
mod piece;
mod steps;

use sheet_files::file;

// A file that can't be read ends the program with nothing on standard output: its line on standard error is the answer.
fn main(rt: HostRuntime) {
    let mut shop = [0u8; file::SHOP_BYTES];
    let mut order = [0u8; file::ORDER_BYTES];
    let mut trace = [0u8; file::TRACE_BYTES];
    let Some(shop) = file::read(&rt, b"listing", b"shop", &mut shop) else {
        return;
    };
    let Some(order) = file::read(&rt, b"listing", b"order", &mut order) else {
        return;
    };
    let Some(trace) = file::read(&rt, b"listing", b"trace", &mut trace) else {
        return;
    };
    answer::list(&rt, shop, order, trace);
}
