// The line that a case writes. Nothing is told where it can't be written: the output is then not what it must be.
use sheet_rows::refusal::Refusal;

pub fn text(rt: &impl Print, bytes: &[u8]) {
    let _ = rt.write_all(bytes);
}

pub fn digits(rt: &impl Print, value: u64) {
    let _ = rt.print(value);
}

pub fn number(rt: &impl Print, value: u64) {
    text(rt, b" ");
    digits(rt, value);
}

// What stands before an item of a list; before the first, nothing.
pub fn comma(rt: &impl Print, is_first: bool) {
    if !is_first {
        text(rt, b",");
    }
}

// The number and the place of a refusal.
pub fn refusal(rt: &impl Print, refusal: Refusal) {
    number(rt, u64::from(refusal.number()));
    number(rt, u64::from(refusal.place));
}

// What a check answers: the number and the place of its refusal, 0 twice where it refuses nothing.
pub fn answer(rt: &impl Print, answer: Result<(), Refusal>) {
    match answer {
        Ok(()) => text(rt, b" 0 0"),
        Err(refused) => refusal(rt, refused),
    }
}

// What a check answers, and the line's end.
pub fn verdict(rt: &impl Print, checked: Result<(), Refusal>) {
    answer(rt, checked);
    text(rt, b"\n");
}
