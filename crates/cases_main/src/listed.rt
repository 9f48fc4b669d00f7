// The listing of a trace that a replay accepts: `: ABOVE RELEASED BROUGHT METHOD, ABOVE RELEASED BROUGHT METHOD`, a line for each goal in
// the order of release. Refused, `: NUMBER PLACE COUNT COST ATOM`, the numbers of the replay's answer. Document 02, Req 03.
ghost use Rattle.replay.specs.Running.{Prepared};
ghost use Rattle.cases_main.specs.Accepted.{IsAccepted};

use crate::start::Start;
use crate::{line, replayed, room};
use listing::line::Line;
use listing::lines::take_step;
use replay::call::replay;
use step::problem::Problem;
use trace_reader::reader::Reader;

fn write_line(rt: &impl Print, line: Line) {
    line::number(rt, u64::from(line.above));
    line::number(rt, u64::from(line.released));
    line::number(rt, u64::from(line.brought));
    line::number(rt, u64::from(line.method));
}

// The lines of the trace's steps, taken one by one from the first record.
fn write_lines(
    rt: &impl Print,
    shop: &[u16],
    order: &[u16],
    trace: &[u16],
    tables: &[u16],
    mut problem: Problem,
)
    requires { Prepared shop.now order.now tables.now problem × IsAccepted shop.now order.now trace.now }
{
    let mut is_empty = true;
    for step in Reader::open(trace) {
        let told = take_step(
            shop,
            order,
            tables,
            &mut problem.atoms,
            &mut problem.waiting,
            step,
        );
        if let Some(line) = told {
            line::comma(rt, is_empty);
            write_line(rt, line);
            is_empty = false;
        }
    }
    room::write_none(rt, is_empty);
}

fn write_accepted(rt: &impl Print, shop: &[u16], order: &[u16], trace: &[u16])
    requires { IsAccepted shop.now order.now trace.now }
{
    let start = Start::of(shop, order);
    write_lines(rt, shop, order, trace, &start.tables, start.problem);
}

// The replay comes first, so nothing is told of a trace that is refused.
pub fn write(rt: &impl Print, shop: &[u16], order: &[u16], trace: &[u16], room: &mut [u16]) {
    line::text(rt, b":");
    match replay(shop, order, trace, room) {
        Ok(_) => write_accepted(rt, shop, order, trace),
        Err(failure) => replayed::write_refused(rt, failure),
    }
    line::text(rt, b"\n");
}
