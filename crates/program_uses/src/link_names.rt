//! The names of main's links.

ghost use Rattle.std.specs.Prelude.{◌≡◌};
ghost use Rattle.program_uses.specs.LinkNames.{is_link, is_in, is_out, link_way};

use crate::uses::Direction;

/// Whether a digit is that of a link.
fn is_link(digit: u8) -> bool
    ensures { result ≡ is_link digit }
{
    b'0' <= digit && digit <= b'3'
}

/// Whether this is `in` and the digit of a link.
fn is_in(first: u8, second: u8, digit: u8) -> bool
    ensures { result ≡ is_in first second digit }
{
    first == b'i' && second == b'n' && is_link(digit)
}

/// Whether this is `out` and the digit of a link.
fn is_out(first: u8, second: u8, third: u8, digit: u8) -> bool
    ensures { result ≡ is_out first second third digit }
{
    first == b'o' && second == b'u' && third == b't' && is_link(digit)
}

/// The direction in which `main` uses a link of this name.
pub fn link_way(name: &[u8]) -> Option<Direction>
    ensures { result ≡ link_way name.now }
{
    match name {
        [first, second, digit] if is_in(*first, *second, *digit) => Some(Direction::Input),
        [first, second, third, digit] if is_out(*first, *second, *third, *digit) => {
            Some(Direction::Output)
        }
        _ => None,
    }
}
