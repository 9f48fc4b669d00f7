// The search program: `search_main DEPTH NAME` reads the files `shop` and `order` of the current folder, prints what the search answers, and leaves
// the trace that it finds in the file `trace`. NAME is one that no file of the folder has: the trace is written under it, and renamed once it
// is whole. Document 01, "Questions" 41 to 43.
#![tactic(auto)]

mod answer;
mod asked;
mod depth;

use sheet_files::text::Text;
use sheet_files::words::front;
use sheet_files::{file, written};
use std::rt::Files;

// What can't be read or written ends the program with nothing on standard output: its line on standard error is the answer.
fn run(rt: &(impl Files + Print + Eprint), depth: u32, name: &[u8]) {
    let mut shop = [0u8; file::SHOP_BYTES];
    let mut order = [0u8; file::ORDER_BYTES];
    let Some(shop) = file::read(rt, b"search", b"shop", &mut shop) else {
        return;
    };
    let Some(order) = file::read(rt, b"search", b"order", &mut order) else {
        return;
    };
    let mut line = [0u8; Text::HEADING_BYTES];
    let mut trace = [0u8; answer::FILE_BYTES];
    let answer = answer::write_answer(shop, order, depth, &mut line, &mut trace);
    if let Some(size) = answer.file
        && !written::replace(rt, b"search", b"trace", name, front(&trace, size))
    {
        return;
    }
    written::print_line(rt, b"search", front(&line, answer.line));
}

fn main(rt: HostRuntime) {
    let mut room = [0u8; asked::MOST_BYTES];
    let Some(asked) = asked::ask(&rt, &mut room) else {
        return;
    };
    run(&rt, asked.depth, asked.name);
}
