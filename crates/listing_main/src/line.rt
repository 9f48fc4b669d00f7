// The text of a line. Document 02, Req 03.
ghost use Rattle.std.specs.Prelude.{◌≡◌, ◌++◌, ◌+◌, ◌≤◌, length, take, replicate};
ghost use Rattle.sheet_files.specs.Texts.{blank};
ghost use Rattle.listing_main.specs.Listed.{line_text, most_above, line_bytes};

use listing::line::Line;
use network::goals::Goals;
use sheet_files::text;
use sheet_files::text::Text;

// The most bytes of a line: two blanks for each goal above, and every waiting goal but one may stand above that one; and three numbers.
pub const LINE_BYTES: usize = 2 * (Goals::MOST as usize - 1) + 3 * Text::NUMBER_BYTES;

// Blanks go behind the first bytes of the text. Answers how many bytes there are now.
fn put_blanks(text: &mut [u8], at: usize, count: usize) -> usize
    requires { at + count ≤ length text.old }
    ensures few { result ≡ at + count }
    ensures text { take result text.new ≡ take at text.old ++ replicate count blank }
{
    text[at..at + count].fill(b' ');
    at + count
}

// A line goes behind the first bytes of the text. Answers how many bytes there are now.
pub fn put_line(text: &mut [u8], at: usize, line: Line) -> usize
    requires line_bytes_in_bounds { at + line_bytes ≤ length text.old }
    requires above_le_most_above { line.above ≤ most_above }
    ensures few { result ≤ at + line_bytes }
    ensures text { take result text.new ≡ take at text.old ++ line_text line.above line.released line.brought line.method }
{
    let indented = put_blanks(text, at, 2 * usize::from(line.above));
    let first = text::put(text, indented, u64::from(line.released), b' ');
    let second = text::put(text, first, u64::from(line.brought), b' ');
    text::put(text, second, u64::from(line.method), b'\n')
}
