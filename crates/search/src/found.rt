// What a search comes to: the steps of a trace, or how many of its branches ran out of steps.
ghost use Rattle.std.specs.Prelude.{◌≡◌, ◌∷◌, ℕ, suc, ◌+◌, ◌<◌, max};
ghost use Rattle.hgn.specs.Trace.{step};
ghost use Rattle.search.specs.Founds.{steps_from};
ghost use Rattle.hgn.specs.Search.{most_depth};

use network::waiting::Place;

// A step of a trace: the number of its move, and its place.
#[derive(Clone, Copy)]
pub struct Step {
    pub mv: u16,
    pub place: Place,
}

// The steps of a trace, each at its number. What stands behind the last is of no meaning.
#[derive(Clone, Copy)]
pub struct Steps {
    pub listed: [Step; Steps::MOST as usize],
}

impl Steps {
    // The most steps of a search.
    pub const MOST: u32 = 32;

    // No step yet.
    pub const NONE: Steps = Steps {
        listed: [Step {
            mv: 0,
            place: Place(0),
        }; Steps::MOST as usize],
    };

    // The step of this number is put before the trace's others.
    pub fn put(&mut self, number: u16, mv: u16, place: Place)
        requires { number < most_depth }
        ensures { (k : ℕ) → steps_from number (suc k) self.new ≡ step mv place.0 ∷ steps_from (number + 1) k self.old }
    {
        self.listed[number as usize] = Step { mv, place };
    }

    // The trace with the step of this number put before its others.
    pub fn with(mut self, number: u16, mv: u16, place: Place) -> Steps
        requires { number < most_depth }
        ensures { (k : ℕ) → steps_from number (suc k) result ≡ step mv place.0 ∷ steps_from (number + 1) k self }
    {
        self.put(number, mv, place);
        self
    }
}

// How many branches ran out of steps before no trace was found, as far as they are counted.
#[derive(Clone, Copy)]
pub struct Exhausted(pub u16);

impl Exhausted {
    // Branches that ran out of steps are counted so far: a search with so many is a long one.
    pub const MANY: u16 = 64;

    // This branch ran out of steps too.
    pub fn one_more(self) -> Exhausted
        ensures { 0 < result.0 }
    {
        if self.0 < Exhausted::MANY {
            Exhausted(self.0 + 1)
        } else {
            self
        }
    }

    // Of two counts, one of them taken on from the other, the later.
    pub fn max(self, other: Exhausted) -> Exhausted
        ensures { result.0 ≡ max self.0 other.0 }
    {
        Exhausted(self.0.max(other.0))
    }
}
