// Runs the cases of standard input, which is the file `stdin` of this crate, and writes a line for each: the call, the case's name,
// and what was answered. A case is a line `CALL: NAME; SHOP | ORDER | TRACE | ROOM`, with the parts that the call takes, or
// `CALL: NAME; same | TRACE | ROOM` on the sheets of the last line `with SHOP | ORDER`. A case of relevance, which is no call, is a line
// `relevance: NAME; EFFECTS | WANTED`. The top of `stdin` says the rest at length.
#![tactic(auto)]

ghost use Rattle.std.specs.Prelude.{◌≤◌, length};

mod call;
mod case;
mod joined;
mod line;
mod listed;
mod relevances;
mod replayed;
mod room;
mod searched;
mod sheet;
mod sources;
mod start;
mod stepping;
mod text;

use std::io::{ErrorKind, Input, Read};

// The bytes of the longest input, and one more.
const MOST_BYTES: usize = 131071;

fn run_lines(rt: &impl Print, text: &[u8]) {
    // The last `with` line; at first there is none.
    let mut with: &[u8] = &[];
    for line in text.split(|&byte| byte == b'\n') {
        if case::has_sheets(line) {
            with = line;
        }
        case::run_line(rt, with, line);
    }
}

// Reads until the room is full, the input ends or a read fails, and answers how many bytes came; a read that a signal interrupts is made again. A
// proved loop has to end, so the turns are bounded by a number that no run uses up.
fn read_full<R: Read>(reader: &mut R, room: &mut [u8]) -> usize
    ensures { result ≤ length room.new }
{
    let mut count = 0;
    for _ in 0..u64::MAX {
        if room.len() <= count {
            break;
        }
        match reader.read(&mut room[count..]) {
            Ok(0) => break,
            Ok(more) => count += more,
            Err(error) if error.kind() == ErrorKind::Interrupted => {}
            Err(_) => break,
        }
    }
    count
}

// Reads the input, and runs its lines. What leaves no byte free may be the front of more: none of it is run.
fn run_input(rt: &(impl Input + Print), room: &mut [u8]) {
    let mut reader = rt.reader();
    let count = read_full(&mut reader, room);
    if count < room.len() {
        run_lines(rt, &room[..count]);
    } else {
        line::text(
            rt,
            b"too long: the input has more bytes than the case program takes\n",
        );
    }
}

fn main(rt: HostRuntime) {
    let mut room = [0; MOST_BYTES];
    run_input(&rt, &mut room);
}
