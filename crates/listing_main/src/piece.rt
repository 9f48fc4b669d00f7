// The piece of text of a step. Document 02, Req 03.
ghost use Rattle.std.specs.Prelude.{◌≡◌, ◌++◌, ◌+◌, ◌≤◌, length, take};
ghost use Rattle.listing.specs.Lines.{lines_told, Narrow};
ghost use Rattle.listing_main.specs.Pieces.{piece_text, piece_bytes};

use crate::line::{LINE_BYTES, put_line};
use listing::line::Line;

// The most bytes of a piece: a step tells one line at most.
pub const PIECE_BYTES: usize = LINE_BYTES;

// The line that a step told, if it told one, goes behind the first bytes of the text. Answers how many bytes there are now.
pub fn put_piece(text: &mut [u8], at: usize, told: Option<Line>) -> usize
    requires piece_bytes_in_bounds { at + piece_bytes ≤ length text.old }
    requires narrow { Narrow (lines_told told) }
    ensures few { result ≤ at + piece_bytes }
    ensures text { take result text.new ≡ take at text.old ++ piece_text told }
{
    match told {
        Some(line) => put_line(text, at, line),
        None => at,
    }
}
