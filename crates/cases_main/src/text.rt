// Parts of a text.
ghost use Rattle.std.specs.Prelude.{◌≡◌, ◌+◌, ◌<◌, eqb, length, take, drop};
ghost use Rattle.hgn.specs.Lists.{take_until};

use sheet_files::words::front;

// Where a byte stands after `from`, a place of the text, or the text's length where it stands at none.
pub fn find(text: &[u8], from: usize, byte: u8) -> usize
    ensures { from < length text.now → result ≡ from + 1 + length (take_until (eqb byte) (drop (from + 1) text.now)) }
{
    if text.len() <= from {
        return from;
    }
    let behind = &text[from + 1..];
    let before = behind.iter().position(|&other| other == byte);
    from + 1 + before.unwrap_or(behind.len())
}

// The bytes between two places, neither among them; to the text's end where the second is no place of it.
pub fn between(text: &[u8], from: usize, to: usize) -> &[u8]
    ensures { result.now ≡ drop (from + 1) (take to text.now) }
{
    rest(rest(front(text, to), from), 1)
}

// The bytes from a place on, or none where the text has no such place.
pub fn rest(text: &[u8], from: usize) -> &[u8]
    ensures { result.now ≡ drop from text.now }
{
    text.get(from..).unwrap_or(&[])
}
