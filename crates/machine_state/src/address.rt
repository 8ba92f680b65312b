//! Addresses, and the places of memory that they name.

ghost use Rattle.std.specs.Prelude.{◌≡◌};
ghost use Rattle.machine_state.specs.Memory.{place_of, local_address};

/// The address of the first byte of the data area.
pub const DATA_START: u32 = 0x8000_0100;

/// The address of the word of output link 0, MostNeg. The words of output links 1 to 3 follow it, and then those of
/// input links 0 to 3 (T414 compiler writer's guide).
pub const LINK_WORDS: u32 = 0x8000_0000;

/// The place of the byte at an address, counted from the start of the data area. The addresses before the
/// data area have places far after its end.
#[tactic(auto, unfolding(crate::specs::Memory::place_of))]
pub fn place_of(address: u32) -> u32
    ensures { result ≡ place_of address }
{
    address.wrapping_sub(DATA_START)
}

/// The address of the word with this number from a workspace, modulo 2^32.
#[tactic(auto, unfolding(crate::specs::Memory::local_address))]
pub fn local_address(workspace: u32, number: i32) -> u32
    ensures { result ≡ local_address workspace number }
{
    workspace.wrapping_add(number.cast_unsigned().wrapping_mul(4))
}
