// The replay program: reads the files `shop`, `order` and `trace` of the current folder and prints what the replay answers.
// Document 01, "One core of sixty centimetres".
#![tactic(auto)]

mod answer;

use sheet_files::words::front;
use sheet_files::{file, written};

// A file that can't be read ends the program with nothing on standard output: its line on standard error is the answer.
fn main(rt: HostRuntime) {
    let mut shop = [0u8; file::SHOP_BYTES];
    let mut order = [0u8; file::ORDER_BYTES];
    let mut trace = [0u8; file::TRACE_BYTES];
    let Some(shop) = file::read(&rt, b"replay", b"shop", &mut shop) else {
        return;
    };
    let Some(order) = file::read(&rt, b"replay", b"order", &mut order) else {
        return;
    };
    let Some(trace) = file::read(&rt, b"replay", b"trace", &mut trace) else {
        return;
    };
    let mut text = [0u8; answer::MOST_BYTES];
    let length = answer::write_answer(shop, order, trace, &mut text);
    written::print_line(&rt, b"replay", front(&text, length));
}
