// What brought the waiting goals in: ` METHOD STEP, METHOD STEP`, the method's number and the step's of each, in the order of their places;
// 65535 twice of a goal of the order. Document 02, Req 03.
use crate::{line, room};
use listing::line::{method_of, step_of};
use network::goals::Goals;
use network::waiting::{Entry, Place};

fn write_source(rt: &impl Print, goal: Entry) {
    line::number(rt, u64::from(method_of(goal)));
    line::number(rt, u64::from(step_of(goal)));
}

pub fn write(rt: &impl Print, waiting: &Goals) {
    for place in 0..waiting.len() {
        line::comma(rt, place == 0);
        write_source(rt, waiting.entry_at(Place(place)));
    }
    room::write_none(rt, waiting.len() == 0);
}
