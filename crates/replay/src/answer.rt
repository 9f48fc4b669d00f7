// What a replay answers of a trace that it accepts. Document 01, "Questions"; document 02, Req 01.
ghost use Rattle.std.specs.Prelude.{◌≡◌};
ghost use Rattle.replay.specs.Answers.{accepted_at};

use sheet_check::check::Shop;
use state::atoms::State;

// The number of steps; the plan's length and its cost. The last state stands beside them, where the caller keeps it.
#[derive(Clone, Copy)]
pub struct Counts {
    pub steps: u16,
    pub count: u16,
    pub cost: u32,
}

// The number of steps; the state after the last; the plan's length and its cost.
#[derive(Clone, Copy)]
pub struct Accepted {
    pub steps: u16,
    pub state: State,
    pub count: u16,
    pub cost: u32,
}

impl Accepted {
    // The counts and the last state, as one value.
    pub fn of(counts: Counts, atoms: &[bool; Shop::MOST_ATOMS as usize]) -> Accepted
        ensures { result ≡ accepted_at atoms.now counts }
    {
        Accepted {
            steps: counts.steps,
            state: State { atoms: *atoms },
            count: counts.count,
            cost: counts.cost,
        }
    }
}
