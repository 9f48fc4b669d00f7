// The join program: reads the files `shop` and `first` of the current folder, the shop and the order sheet of one folder, and `other-shop` and
// `second`, those of another. It prints what the join answers, and leaves the joined sheet in the new file `order`. Document 02, Req 02.
#![tactic(auto)]

mod answer;
mod same;

use answer::{FILE_BYTES, write_answer};
use sheet_files::text::Text;
use sheet_files::words::front;
use sheet_files::{file, written};
use std::rt::Files;

// The answer goes to standard output, a joined sheet first into its file. What can't be written, and two shop sheets that differ, have a line on
// standard error and nothing on standard output. Kept apart: inlined, its rooms would take stack while the files are read too.
#[inline(never)]
fn answer_to(
    rt: &(impl Files + Print + Eprint),
    shop: &[u8],
    other: &[u8],
    first: &[u8],
    second: &[u8],
) {
    let mut line = [0u8; Text::HEADING_BYTES];
    let mut order = [0u8; FILE_BYTES];
    let Some(answer) = write_answer(shop, other, first, second, &mut line, &mut order) else {
        let _ = rt.eprintln("join: the two folders have different shop sheets");
        return;
    };
    if let Some(size) = answer.file
        && !written::write_new(rt, b"join", b"order", front(&order, size))
    {
        return;
    }
    written::print_line(rt, b"join", front(&line, answer.line));
}

// A file that can't be read ends the program with nothing on standard output: its line on standard error is the answer.
fn main(rt: HostRuntime) {
    let mut shop = [0u8; file::SHOP_BYTES];
    let mut other = [0u8; file::SHOP_BYTES];
    let mut first = [0u8; file::ORDER_BYTES];
    let mut second = [0u8; file::ORDER_BYTES];
    let Some(shop) = file::read(&rt, b"join", b"shop", &mut shop) else {
        return;
    };
    let Some(other) = file::read(&rt, b"join", b"other-shop", &mut other) else {
        return;
    };
    let Some(first) = file::read(&rt, b"join", b"first", &mut first) else {
        return;
    };
    let Some(second) = file::read(&rt, b"join", b"second", &mut second) else {
        return;
    };
    answer_to(&rt, shop, other, first, second);
}
