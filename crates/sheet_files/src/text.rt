// Numbers as decimal text, and the line that begins an answer. Document 01, "One core of sixty centimetres"; document 02, Req 01.
ghost use Rattle.std.specs.Prelude.{◌≡◌, ◌++◌, ◌+◌, ◌≤◌, length, take};
ghost use Rattle.std.proofs.Math.Seq.{paste};
ghost use Rattle.hgn.specs.Questions.{no_refusal, placed};
ghost use Rattle.sheet_rows.specs.Refusals.{refusal_of};
ghost use Rattle.sheet_files.specs.Texts.{ended, heading, answer_line, number_bytes, heading_bytes};

use itoa::Buffer;
use sheet_rows::refusal::Refusal;
use state::atoms;

// The room that a text takes.
#[derive(Clone, Copy)]
pub struct Text;

impl Text {
    // So many digits hold every 64-bit number.
    const MOST_DIGITS: usize = 20;

    // A number takes its digits and a byte that ends it.
    pub const NUMBER_BYTES: usize = Text::MOST_DIGITS + 1;

    // The heading has five numbers: number, place, plan count, cost and unmet atom.
    pub const HEADING_BYTES: usize = Text::NUMBER_BYTES * 5;
}

// A number and the byte that ends it go behind the first bytes of the text. Answers how many there are now.
pub fn put(text: &mut [u8], at: usize, number: u64, end: u8) -> usize
    requires { at + number_bytes ≤ length text.old }
    ensures few { result ≤ at + number_bytes }
    ensures text { take result text.new ≡ take at text.old ++ ended end number }
{
    let mut room = Buffer::new();
    let digits = room.format(number).as_bytes();
    let last = at + digits.len();
    text[at..last].copy_from_slice(digits);
    text[last] = end;
    last + 1
}

// The five numbers of the first line.
pub fn put_heading(
    text: &mut [u8],
    number: u16,
    place: u16,
    count: u16,
    cost: u32,
    atom: u16,
) -> usize
    requires { heading_bytes ≤ length text.old }
    ensures few { result ≤ heading_bytes }
    ensures text { take result text.new ≡ heading number place count cost atom }
{
    let first = put(text, 0, number as u64, b' ');
    let second = put(text, first, place as u64, b' ');
    let third = put(text, second, count as u64, b' ');
    let fourth = put(text, third, cost as u64, b' ');
    put(text, fourth, atom as u64, b'\n')
}

// The first line of a call that is refused and answers a number and a place and nothing else. Answers how many bytes it has.
pub fn put_refusal(text: &mut [u8], refusal: Refusal) -> usize
    requires { heading_bytes ≤ length text.old }
    ensures { take result text.new ≡ answer_line (refusal_of refusal) }
{
    put_heading(text, refusal.number(), refusal.place, 0, 0, atoms::NO_ATOM)
}

// The same of a call that is accepted: 0, and the place that it answers.
pub fn put_accepted(text: &mut [u8], place: u16) -> usize
    requires { heading_bytes ≤ length text.old }
    ensures { take result text.new ≡ answer_line (placed place no_refusal) }
{
    put_heading(text, 0, place, 0, 0, atoms::NO_ATOM)
}
