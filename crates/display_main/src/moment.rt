// The text of a moment: a line `NUMBER ATOMS GOALS`, the steps taken so far, how many atoms are true and how many goals wait; then a line for each
// atom that is true, by rising numbers; then a line for each waiting goal, in the order of their places. Document 01, "How a derivation runs";
// document 02, Req 03.
ghost use Rattle.std.specs.Prelude.{◌≡◌, ◌++◌, ◌+◌, ◌*◌, ◌<◌, ◌≤◌, length, take};
ghost use Rattle.hgn.specs.State.{most_atoms};
ghost use Rattle.hgn.specs.Network.{most_waiting};
ghost use Rattle.sheet_files.specs.Texts.{number_bytes};
ghost use Rattle.display_main.specs.Moments.{true_atoms, number_lines, four_bytes, moment_bytes};
ghost use Rattle.display_main.specs.Puts.{GoalPut, GoalsPut, MomentPut};

use crate::line::{FOUR_BYTES, THREE_BYTES, put_numbers};
use listing::line::{method_of, step_of};
use network::goals::Goals;
use network::waiting::Place;
use sheet_check::check::Shop;
use sheet_files::text;
use sheet_files::text::Text;
use step::problem::Problem;

// The most bytes of a moment.
pub const MOMENT_BYTES: usize = THREE_BYTES
    + Text::NUMBER_BYTES * (Shop::MOST_ATOMS as usize)
    + FOUR_BYTES * (Goals::MOST as usize);

// How many atoms are true.
fn true_count(atoms: &[bool]) -> u16
    requires { length atoms.now ≤ most_atoms }
    ensures { result ≡ length (true_atoms atoms.now) }
{
    // By the atom's number, here and below: an iterator's closure, or its pairs, took twice the instructions.
    let mut count = 0;
    for atom in 0..atoms.len() {
        if atoms[atom] {
            count += 1;
        }
    }
    count
}

// A line for each atom that is true goes behind the first bytes of the text. Answers how many bytes there are now.
fn put_atoms(text: &mut [u8], at: usize, atoms: &[bool]) -> usize
    requires { at + number_bytes * length atoms.now ≤ length text.old }
    ensures few { result ≤ at + number_bytes * length atoms.now }
    ensures text { take result text.new ≡ take at text.old ++ number_lines (true_atoms atoms.now) }
{
    let mut end = at;
    for atom in 0..atoms.len() {
        if atoms[atom] {
            end = text::put(text, end, atom as u64, b'\n');
        }
    }
    end
}

// The line of the goal at a place, `NUMBER FREE STEP METHOD`: its number within its network, 1 if it is free, and the step and the method that
// brought it in, 65535 twice of a goal of the order.
fn put_goal(text: &mut [u8], at: usize, waiting: &Goals, place: Place) -> usize
    requires four_bytes_in_bounds { at + four_bytes ≤ length text.old }
    requires within { place.0 < most_waiting }
    ensures few { result ≤ at + four_bytes }
    ensures text { GoalPut waiting.now place.0 (take at text.old) (take result text.new) }
{
    let goal = waiting.entry_at(place);
    let free = u16::from(waiting.is_free(place));
    put_numbers(
        text,
        at,
        &[goal.number, free, step_of(goal), method_of(goal)],
    )
}

// A line for each waiting goal goes behind the first bytes of the text. Answers how many bytes there are now.
fn put_goals(text: &mut [u8], at: usize, waiting: &Goals) -> usize
    requires most_waiting_in_bounds { at + four_bytes * most_waiting ≤ length text.old }
    ensures few { result ≤ at + four_bytes * most_waiting }
    ensures text { GoalsPut waiting.now (take at text.old) (take result text.new) }
{
    let mut end = at;
    for place in 0..waiting.len() {
        end = put_goal(text, end, waiting, Place(place));
    }
    end
}

// A moment goes behind the first bytes of the text. Answers how many bytes there are now.
pub fn put_moment(text: &mut [u8], at: usize, number: u16, problem: Problem) -> usize
    requires moment_bytes_in_bounds { at + moment_bytes ≤ length text.old }
    ensures few { result ≤ at + moment_bytes }
    ensures text { MomentPut number problem (take at text.old) (take result text.new) }
{
    let holding = true_count(&problem.atoms);
    let waits = problem.waiting.len();
    let first = put_numbers(text, at, &[number, holding, waits]);
    let second = put_atoms(text, first, &problem.atoms);
    put_goals(text, second, &problem.waiting)
}
