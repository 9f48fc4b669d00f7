// What a move's number reads as. Document 01, "How a derivation runs".
ghost use Rattle.std.specs.Prelude.{◌≡◌};
ghost use Rattle.step.specs.Moves.{read_of, move_read};

use network::waiting::Place;

#[derive(Clone, Copy)]
pub enum Move {
    Release,
    // An action by its number, from 1.
    Act(u16),
    // A method by its number, from 0.
    Use(u16),
}

// A move at the goal of a place.
#[derive(Clone, Copy)]
pub struct Choice {
    pub mv: Move,
    pub place: Place,
}

// A step of a trace: its number, its move and its place.
#[derive(Clone, Copy)]
pub struct Step {
    pub number: u16,
    pub mv: u16,
    pub place: Place,
}

impl Move {
    pub const RELEASE: u16 = 0;
    // The move that stands for method 0.
    pub const FIRST_METHOD: u16 = 256;

    // A move by its number in a shop of so many actions and methods, if it is the number of one.
    #[tactic(auto, unfolding(crate::specs::Moves::move_read))]
    pub fn read(number: u16, actions: u16, methods: u16) -> Option<Move>
        ensures { read_of result ≡ move_read number actions methods }
    {
        if number == Self::RELEASE {
            return Some(Move::Release);
        }
        if number <= actions {
            return Some(Move::Act(number));
        }
        let method = number.checked_sub(Self::FIRST_METHOD)?;
        (method < methods).then_some(Move::Use(method))
    }
}
