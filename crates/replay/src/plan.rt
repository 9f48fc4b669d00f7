// The plan: the actions among a trace's moves, written into the lent room. Document 01, "Questions".
ghost use Rattle.std.specs.Prelude.{◌≡◌, ◌++◌, ◌≤◌, length, drop};
ghost use Rattle.replay.specs.Answers.{action_moves};

// The moves that are actions, of so many, go into the first words of the room.
pub fn write_plan(moves: &[u16], actions: u16, room: &mut [u16])
    requires { length moves.now ≤ length room.old }
    ensures { room.new ≡ action_moves actions moves.now ++ drop (length (action_moves actions moves.now)) room.old }
{
    let mut written = 0;
    for &number in moves {
        if 0 < number && number <= actions {
            room[written] = number;
            written += 1;
        }
    }
}
