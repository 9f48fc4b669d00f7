// What a replay answers and what it leaves in the room: `: NUMBER PLACE COUNT COST ATOM; state ATOMS; plan WORDS; rest kept`. ATOM is the
// first atom that is not as wanted, 256 for none. Refused, the plan is empty and the rest is the whole room.
ghost use Rattle.std.specs.Prelude.{◌≡◌, ◌≤◌, length};
ghost use Rattle.hgn.specs.State.{most_atoms};
ghost use Rattle.hgn.specs.Replay as Replay;

use crate::{line, room};
use replay::answer::Accepted;
use replay::call::replay;
use sheet_check::check::Shop;
use sheet_files::words::front;
use sheet_rows::position::Atom;
use state::atoms;
use step::failure::Failure;

// The first atom from this one on that is not in the state, or their number where there is none.
fn next_out(atoms: &[bool], from: Atom) -> Atom
    requires { (from.0 ≤ length atoms.now) × (length atoms.now ≤ most_atoms) }
    ensures { (from.0 ≤ result.0) × (result.0 ≤ length atoms.now) }
{
    let behind = &atoms[usize::from(from.0)..];
    let held = behind.iter().position(|&holds| !holds);
    Atom(from.0 + held.unwrap_or(behind.len()) as u16)
}

// Neighbouring atoms, from the first to the last.
fn write_atoms(rt: &impl Print, first: Atom, last: Atom) {
    line::number(rt, u64::from(first.0));
    if first.0 < last.0 {
        line::text(rt, b" to");
        line::number(rt, u64::from(last.0));
    }
}

fn write_state(rt: &impl Print, atoms: [bool; Shop::MOST_ATOMS as usize]) {
    line::text(rt, b"; state");
    let mut is_empty = true;
    // A walk from one end of neighbours to the next, so no count.
    let mut at: u16 = 0;
    while at < Shop::MOST_ATOMS {
        let out = next_out(&atoms, Atom(at));
        if at < out.0 {
            write_atoms(rt, Atom(at), Atom(out.0 - 1));
            is_empty = false;
        }
        at = out.0 + 1;
    }
    room::write_none(rt, is_empty);
}

// The five numbers of an answer that accepts.
fn write_accepted(rt: &impl Print, accepted: Accepted) {
    line::number(rt, 0);
    line::number(rt, u64::from(accepted.steps));
    line::number(rt, u64::from(accepted.count));
    line::number(rt, u64::from(accepted.cost));
    line::number(rt, u64::from(atoms::NO_ATOM));
}

// The five numbers of an answer that refuses.
pub fn write_refused(rt: &impl Print, failure: Failure) {
    line::refusal(rt, failure.refusal);
    line::text(rt, b" 0 0");
    line::number(rt, u64::from(failure.atom_word()));
}

fn write_answer(rt: &impl Print, answer: Result<Accepted, Failure>, room: &[u16]) {
    line::text(rt, b":");
    match answer {
        Ok(accepted) => {
            let count = usize::from(accepted.count);
            write_accepted(rt, accepted);
            write_state(rt, accepted.state.atoms);
            line::text(rt, b"; plan");
            room::write_list(rt, front(room, count));
            room::write_rest(rt, room, count);
        }
        Err(failure) => {
            write_refused(rt, failure);
            line::text(rt, b"; state none; plan none");
            room::write_rest(rt, room, 0);
        }
    }
    line::text(rt, b"\n");
}

// The answer is written, and the room is left as the replay leaves it.
pub fn write(rt: &impl Print, shop: &[u16], order: &[u16], trace: &[u16], room: &mut [u16])
    ensures { room.new ≡ (Replay.replay shop.now order.now trace.now room.old).room }
{
    let answer = replay(shop, order, trace, room);
    write_answer(rt, answer, room);
}
