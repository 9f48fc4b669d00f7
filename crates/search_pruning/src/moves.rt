// The moves in the order in which they are tried. Document 01, "How a derivation runs".
ghost use Rattle.std.specs.Prelude.{◌≡◌, ◌<◌};
ghost use Rattle.search_pruning.specs.Tests.{nth_move, move_number};

use step::moves::Move;

// Move `i` of the known moves, rising: the release, the actions, the methods.
pub fn nth(i: u16, actions: u16) -> Move
    ensures { result ≡ nth_move i actions }
{
    if i == 0 {
        Move::Release
    } else if i <= actions {
        Move::Act(i)
    } else {
        Move::Use(i - actions - 1)
    }
}

// The number that stands for a move. It is no `From`, which could not ask that the number is a word.
pub fn number_of(mv: Move) -> u16
    requires { move_number mv < 65536 }
    ensures { result ≡ move_number mv }
{
    match mv {
        Move::Release => 0,
        Move::Act(action) => action,
        Move::Use(method) => Move::FIRST_METHOD + method,
    }
}
