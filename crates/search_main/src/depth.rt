// The depth that is typed. Document 01, "Questions" 41.
ghost use Rattle.std.specs.Prelude.{◌≡◌, true, ◌+◌, ◌*◌, ◌-◌, ◌≤◌};
ghost use Rattle.search_main.specs.Depths.{is_digit, zero_digit, capped, first_too_deep, depth_is, depth_of};

use search::found::Steps;

// Every depth from this one on is refused alike, so a longer number is read as this one.
const FIRST_TOO_DEEP: u32 = Steps::MOST + 1;

// A digit goes behind those of the depth.
fn behind(depth: u32, digit: u8) -> u32
    requires { (depth ≤ first_too_deep) × (is_digit digit ≡ true) }
    ensures { result ≡ capped (10 * depth + (digit - zero_digit)) }
{
    FIRST_TOO_DEEP.min(10 * depth + u32::from(digit - b'0'))
}

// Decimal digits and nothing else, at least one: a depth, at most the first that is too deep.
pub fn depth_of(text: &[u8]) -> Option<u32>
    ensures { depth_is result ≡ depth_of text.now }
{
    if text.is_empty() {
        return None;
    }
    let mut depth = 0;
    for byte in text {
        if !byte.is_ascii_digit() {
            return None;
        }
        depth = behind(depth, *byte);
    }
    Some(depth)
}
