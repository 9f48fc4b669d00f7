// A trace held open, whose steps come one by one. Document 02, Req 03; document 01, "What shape each place takes".
ghost use Rattle.std.specs.Prelude.{◌≡◌, ◌+◌, ◌<◌, ◌^◌, IfSome};
ghost use Rattle.trace_reader.specs.TraceRows.{row_at, step_of};

use network::waiting::Place;
use sheet_check::check::Trace;
use sheet_check::rows::Row;
use sheet_check::sizes::TraceSizes;
use step::moves::Step;

// A trace, and the row, that is the step, which its reading has reached.
#[derive(Clone, Copy)]
pub struct Reader<'a> {
    pub trace: &'a [u16],
    pub row: Row,
}

// The step at a row of any words; none past the last. Words that are too few for the steps they name end where the last place is missing. A
// trace's steps are few enough that the row behind each has a number.
pub fn step_at(trace: &[u16], row: Row) -> Option<Step>
    ensures reads { step_of result ≡ row_at trace.now row.0 }
    ensures numbered { IfSome result (λ step. step.number ≡ row.0) }
    ensures followed { IfSome result (λ step. row.0 + 1 < 2 ^ 16) }
{
    let steps = usize::from(TraceSizes::of(trace).steps);
    let at = usize::from(row.0);
    if at >= steps {
        return None;
    }
    let place = *trace.get(Trace::SIZES + steps + at)?;
    Some(Step {
        number: row.0,
        mv: trace[Trace::SIZES + at],
        place: Place(place),
    })
}

impl<'a> Reader<'a> {
    // A trace is opened at its first step.
    pub fn open(trace: &'a [u16]) -> Reader<'a>
        ensures trace { result.trace ≡ trace.entry }
        ensures row { result.row.0 ≡ 0 }
    {
        Reader { trace, row: Row(0) }
    }

    // One row on, in the same trace, behind its end too, where `next` stays.
    pub fn advance(&mut self)
        requires { self.old.row.0 + 1 < 2 ^ 16 }
        ensures { (self.new.trace ≡ self.old.trace) × (self.new.row.0 ≡ self.old.row.0 + 1) }
    {
        self.row = Row(self.row.0 + 1);
    }
}

// A row of a trace that was read, and the row behind it.
#[derive(Clone, Copy)]
pub struct Onward {
    pub step: Option<Step>,
    pub row: Row,
}

// What stands at a row of a trace, and the row behind it, for callers that hold no reader.
pub fn next(trace: &[u16], at: Row) -> Onward
    requires { at.0 + 1 < 2 ^ 16 }
    ensures { (step_of result.step ≡ row_at trace.now at.0) × (result.row.0 ≡ at.0 + 1) }
{
    let mut reader = Reader { trace, row: at };
    let step = step_at(reader.trace, reader.row);
    reader.advance();
    Onward {
        step,
        row: reader.row,
    }
}

// Each step of the trace from the row that is reached on.
impl<'a> Iterator for Reader<'a> {
    ghost use Rattle.std.specs.Iterator.{item_count};
    ghost use Rattle.trace_reader.specs.TraceRows.{GivesStep, steps_left};

    type Item = Step;

    ghost next_gives = { GivesStep };

    ghost remaining = { item_count steps_left };

    fn next(&mut self) -> Option<Step> {
        let step = step_at(self.trace, self.row)?;
        self.row.0 += 1;
        Some(step)
    }
}
