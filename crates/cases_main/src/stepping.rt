// What the display shows of steps, one after the other: `: NUMBER WAITING, NUMBER WAITING ATOM`, the step's number, how many goals wait
// after it, and the first atom that is not as wanted where one is named. Or what brought in the goals that wait after the last of them:
// `: METHOD STEP, METHOD STEP`, behind what is shown of each refused step and a semicolon. A refused step leaves the record as it was: the
// next one goes on from there, as the same step of the trace.
ghost use Rattle.std.specs.Prelude.{◌≡◌, ◌+◌, ◌≤◌};
ghost use Rattle.std.specs.Int.{w16};
ghost use Rattle.std.proofs.Common.{Fits};
ghost use Rattle.hgn.specs.Order.{check_order};
ghost use Rattle.hgn.specs.Questions.{passed};
ghost use Rattle.step.specs.Failures.{told_of};
ghost use Rattle.replay.specs.Running.{Prepared};
ghost use Rattle.display.specs.Stepping.{next_number};

use crate::start::Start;
use crate::{line, sources};
use display::forward;
use network::waiting::Place;
use sheet_check::check::{Trace, check_order};
use sheet_check::rows::word;
use sheet_check::sizes::TraceSizes;
use step::failure::Failure;
use step::moves::Step;
use step::problem::{Problem, Stepped};

// What is written of steps: what each shows, or what the refused ones show and then what brought the waiting goals in.
#[derive(Clone, Copy)]
pub enum View {
    Steps,
    Goals,
}

fn write_shown(rt: &impl Print, shown: Stepped) {
    let waits = u64::from(shown.problem.waiting.len());
    match shown.answer {
        Ok(()) => {
            line::number(rt, 0);
            line::number(rt, waits);
        }
        Err(failure) => {
            line::number(rt, u64::from(failure.number()));
            line::number(rt, waits);
            if let Some(atom) = failure.atom {
                line::number(rt, u64::from(atom.0));
            }
        }
    }
}

fn write_refused(rt: &impl Print, shown: Stepped) {
    if shown.answer.is_err() {
        write_shown(rt, shown);
        line::text(rt, b";");
    }
}

// Only a step that is taken is counted.
fn next_number(number: u16, answer: Result<(), Failure>) -> u16
    requires { Fits w16 (number + 1) }
    ensures { (result ≡ next_number number (told_of answer).refusal.number) × (result ≤ number + 1) }
{
    match answer {
        Ok(()) => number + 1,
        Err(_) => number,
    }
}

impl View {
    fn write_step(self, rt: &impl Print, is_first: bool, shown: Stepped) {
        match self {
            View::Steps => {
                line::comma(rt, is_first);
                write_shown(rt, shown);
            }
            View::Goals => write_refused(rt, shown),
        }
    }

    // What is written of the record after the last step.
    fn write_last(self, rt: &impl Print, last: Problem) {
        match self {
            View::Steps => {}
            View::Goals => sources::write(rt, &last.waiting),
        }
    }
}

fn write_steps(
    rt: &impl Print,
    shop: &[u16],
    order: &[u16],
    trace: &[u16],
    tables: &[u16],
    first: Problem,
    view: View,
)
    requires { Prepared shop.now order.now tables.now first }
{
    let steps = usize::from(TraceSizes::of(trace).steps);
    let mut problem = first;
    let mut number: u16 = 0;
    for at in 0..steps {
        let step = Step {
            number,
            mv: word(trace, Trace::SIZES + at),
            place: Place(word(trace, Trace::SIZES + steps + at)),
        };
        let shown = forward::show_step(problem, shop, order, tables, step);
        view.write_step(rt, at == 0, shown);
        problem = shown.problem;
        number = next_number(number, shown.answer);
    }
    view.write_last(rt, problem);
    line::text(rt, b"\n");
}

fn write_checked(rt: &impl Print, shop: &[u16], order: &[u16], trace: &[u16], view: View)
    requires { check_order shop.now order.now ≡ passed }
{
    let start = Start::of(shop, order);
    write_steps(rt, shop, order, trace, &start.tables, start.problem, view);
}

// The steps of a list, as a trace has them, on sheets that pass; else what their check answers.
pub fn write(rt: &impl Print, shop: &[u16], order: &[u16], trace: &[u16], view: View) {
    line::text(rt, b":");
    match check_order(shop, order) {
        Ok(()) => write_checked(rt, shop, order, trace, view),
        Err(refusal) => line::verdict(rt, Err(refusal)),
    }
}
