// A line of the input: a case, the sheets of the cases below it, or a comment.
ghost use Rattle.std.specs.Prelude.{◌≡◌, true, ◌↔◌, length, take};
ghost use Rattle.cases_main.specs.Names.{with_word, relevance_word};

use crate::call::Call;
use crate::sheet::is_plain;
use crate::text::{between, find, rest};
use crate::{line, relevances};
use sheet_files::words::front;

// Whether a line has the sheets of the cases below it.
pub fn has_sheets(line: &[u8]) -> bool
    ensures { (result ≡ true) ↔ (take (length with_word) line.now ≡ with_word) }
{
    line.starts_with(b"with ")
}

// What stands behind `with`.
fn sheets_of(with: &[u8]) -> &[u8] {
    rest(with, 4)
}

// Whether the parts of a case, from the semicolon on, take the sheets of the last `with` line.
fn is_same(parts: &[u8]) -> bool {
    parts.starts_with(b"; same |")
}

fn is_comment(line: &[u8]) -> bool {
    matches!(line, [] | [b'#', ..])
}

// Whether there are parts, with nothing but sheets, traces and bars in them. For `same` a `with` line must stand above.
fn is_readable(with: &[u8], parts: &[u8]) -> bool {
    if is_same(parts) {
        !with.is_empty() && is_plain(rest(parts, find(parts, 0, b'|')))
    } else {
        !parts.is_empty() && is_plain(rest(parts, 1))
    }
}

// The case on these sheets, whose trace and room stand behind a bar of its parts. Before the shop sheet stands one byte.
fn run_from(rt: &impl Print, call: Call, sheets: &[u8], parts: &[u8], bar: usize) {
    let first = find(sheets, 0, b'|');
    let second = find(sheets, first, b'|');
    let next = find(parts, bar, b'|');
    call.run(
        rt,
        between(sheets, 0, first),
        between(sheets, first, second),
        between(parts, bar, next),
        between(parts, next, parts.len()),
    );
}

fn run_parts(rt: &impl Print, call: Call, with: &[u8], parts: &[u8]) {
    let bar = find(parts, 0, b'|');
    if is_same(parts) {
        run_from(rt, call, sheets_of(with), parts, bar);
    } else {
        run_from(rt, call, parts, parts, find(parts, bar, b'|'));
    }
}

// Such a line is written back: the output is then not what it must be, and no case is lost unseen.
fn write_unreadable(rt: &impl Print, line: &[u8]) {
    line::text(rt, b"unreadable: ");
    line::text(rt, line);
    line::text(rt, b"\n");
}

// Whether a case of this name asks what effects do to a goal. Such a case names no call, since it gives neither a shop nor an order.
fn asks_relevance(name: &[u8]) -> bool
    ensures { (result ≡ true) ↔ (name.now ≡ relevance_word) }
{
    matches!(name, b"relevance")
}

// A case of relevance, whose parts stand from the place `end` on.
fn run_relevance(rt: &impl Print, line: &[u8], end: usize) {
    if let Some(told) = relevances::answer_to(rest(line, end)) {
        line::text(rt, front(line, end));
        relevances::write(rt, told);
    } else {
        write_unreadable(rt, line);
    }
}

// A case of a call, whose name ends at `colon` and whose parts stand from the place `end` on.
fn run_call(rt: &impl Print, with: &[u8], line: &[u8], colon: usize, end: usize) {
    let parts = rest(line, end);
    match Call::named(front(line, colon)) {
        Some(call) if is_readable(with, parts) => {
            line::text(rt, front(line, end));
            run_parts(rt, call, with, parts);
        }
        _ => write_unreadable(rt, line),
    }
}

fn run_case(rt: &impl Print, with: &[u8], line: &[u8]) {
    let colon = find(line, 0, b':');
    let end = find(line, colon, b';');
    if asks_relevance(front(line, colon)) {
        run_relevance(rt, line, end);
    } else {
        run_call(rt, with, line, colon, end);
    }
}

// A line, after the last `with` line or none.
pub fn run_line(rt: &impl Print, with: &[u8], line: &[u8]) {
    if has_sheets(line) {
        if !is_plain(sheets_of(line)) {
            write_unreadable(rt, line);
        }
    } else if !is_comment(line) {
        run_case(rt, with, line);
    }
}
