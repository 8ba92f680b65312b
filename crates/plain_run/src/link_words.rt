//! The words of the links.

ghost use Rattle.std.specs.Prelude.{◌≡◌, ◌+◌, ◌<◌, ◌^◌};
ghost use Rattle.std.specs.Option.{option_map};
ghost use Rattle.machine_state.specs.Exchanges.{link_from, input_link, output_link};
ghost use Rattle.machine_state.specs.Moves.{link_index};

use machine_state::{LINK_WORDS, Link};

/// The address of the word of input link 0.
const INPUT_WORDS: u32 = LINK_WORDS + 16;

/// The link whose word is at the address, of four whose words begin here.
#[inline]
fn link_from(first: u32, address: u32) -> Option<Link>
    requires { first + 12 < 2 ^ 32 }
    ensures { option_map link_index result ≡ link_from first address }
{
    if address > first + 12 {
        None
    } else if address == first {
        Some(Link::Zero)
    } else if address == first + 4 {
        Some(Link::One)
    } else if address == first + 8 {
        Some(Link::Two)
    } else if address == first + 12 {
        Some(Link::Three)
    } else {
        None
    }
}

/// The link whose input word is at the address.
#[inline]
pub(crate) fn input_link(address: u32) -> Option<Link>
    ensures { option_map link_index result ≡ input_link address }
{
    link_from(INPUT_WORDS, address)
}

/// The link whose output word is at the address.
#[inline]
pub(crate) fn output_link(address: u32) -> Option<Link>
    ensures { option_map link_index result ≡ output_link address }
{
    link_from(LINK_WORDS, address)
}
