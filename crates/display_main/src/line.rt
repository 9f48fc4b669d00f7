// Lines of numbers, of which the text of a moment is made. Document 01, "How a derivation runs".
ghost use Rattle.std.specs.Prelude.{◌≡◌, ◌++◌, ◌+◌, ◌*◌, ◌≤◌, length, take};
ghost use Rattle.sheet_files.specs.Texts.{number_bytes};
ghost use Rattle.display_main.specs.Moments.{numbers_text};

use sheet_files::text;
use sheet_files::text::Text;

// The most bytes of a line of three numbers, and of one of four.
pub const THREE_BYTES: usize = 3 * Text::NUMBER_BYTES;

pub const FOUR_BYTES: usize = 4 * Text::NUMBER_BYTES;

// A line of numbers, one blank apart, goes behind the first bytes of the text. Answers how many bytes there are now.
pub fn put_numbers(text: &mut [u8], at: usize, numbers: &[u16]) -> usize
    requires { at + number_bytes * length numbers.now ≤ length text.old }
    ensures few { result ≤ at + number_bytes * length numbers.now }
    ensures text { take result text.new ≡ take at text.old ++ numbers_text numbers.now }
{
    let Some((last, others)) = numbers.split_last() else {
        return at;
    };
    let mut end = at;
    for number in others {
        end = text::put(text, end, u64::from(*number), b' ');
    }
    text::put(text, end, u64::from(*last), b'\n')
}
