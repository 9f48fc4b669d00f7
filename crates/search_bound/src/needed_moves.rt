// The moves that every accepted trace makes, as far as they are found. They are told apart by operator: operator k is action k + 1, and
// the methods follow the actions.
ghost use Rattle.std.specs.Prelude.{◌≡◌, true, ℕ, ◌<◌, List, slice_index};
ghost use Rattle.hgn.specs.Run.{Problem};
ghost use Rattle.hgn.specs.Replay.{rules_of};
ghost use Rattle.search_bound.specs.NeededMoves.{most_needed, Holds, WithOperator};

use sheet_check::check::Shop;

#[derive(Clone, Copy)]
pub struct NeededMoves {
    // How many operators are gathered, and the steps that they take together.
    count: u16,
    steps: u16,
    // No trace is accepted, since a wanted literal is achieved by no action.
    hopeless: bool,
    // The operators that are gathered, in the order in which they were found, and for each operator of the shop sheet whether it is one.
    operators: [u16; NeededMoves::MOST as usize],
    gathered: [bool; NeededMoves::MOST as usize],
}

impl NeededMoves {
    // The most operators that are gathered: every action and method of a shop sheet.
    const MOST: u16 = Shop::MOST_ACTIONS + Shop::MOST_METHODS;
    // The most steps that an operator may take, and the most that all may take before one is added.
    const MOST_STEPS: u16 = 1000;

    const FULL: u16 = 59000;

    // No moves.
    pub fn new() -> NeededMoves
        ensures { (shop : List ℕ) (P : Problem) → Holds (rules_of shop) P result }
    {
        NeededMoves {
            count: 0,
            steps: 0,
            hopeless: false,
            operators: [0; Self::MOST as usize],
            gathered: [false; Self::MOST as usize],
        }
    }

    // How many operators are gathered.
    pub fn count(&self) -> u16
        ensures { result ≡ self.now.count }
    {
        self.count
    }

    // The steps that the gathered operators take together.
    pub fn steps(&self) -> u16
        ensures { result ≡ self.now.steps }
    {
        self.steps
    }

    // No trace is accepted, since a wanted literal is achieved by no action.
    pub fn is_hopeless(&self) -> bool
        ensures { result ≡ self.now.hopeless }
    {
        self.hopeless
    }

    // From now on it is said that no trace is accepted.
    pub fn give_up(&mut self)
        ensures { self.new ≡ record self.old { hopeless = true } }
    {
        self.hopeless = true;
    }

    // The operator that was found as number `at`, from 0.
    pub fn operator_at(&self, at: u16) -> u16
        requires { at < most_needed }
        ensures { result ≡ slice_index self.now.operators at }
    {
        self.operators[at as usize]
    }

    // One more operator is gathered with the steps that it takes, if it is not yet. Where there is no room for it, it is left out: fewer
    // moves are needed too.
    pub fn add(&mut self, operator: u16, steps: u16)
        ensures { WithOperator operator steps self.old self.new }
    {
        if self.count < Self::MOST
            && self.steps <= Self::FULL
            && steps <= Self::MOST_STEPS
            && operator < Self::MOST
            && !self.gathered[operator as usize]
        {
            self.gathered[operator as usize] = true;
            self.operators[self.count as usize] = operator;
            self.count += 1;
            self.steps += steps;
        }
    }
}
