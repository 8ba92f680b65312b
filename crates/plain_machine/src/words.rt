//! Words, bytes and blocks of memory by their addresses.
#![tactic(auto, using(crate::proofs::PlainBytes::sizes))]

ghost use Rattle.std.specs.Prelude.{◌≡◌, ◌<◌, Some, length};
ghost use Rattle.machine_state.specs.LocalStep.{copied};
ghost use Rattle.machine_state.specs.Memory.{place_of, with_byte, with_word};
ghost use Rattle.plain_machine.specs.Plain.{defined};
ghost use Rattle.plain_machine.specs.PlainStep.{HasWord, HasBytes, plain_word, plain_byte};

use crate::bytes;
use machine_state::place_of;

/// The word at an address.
#[inline]
pub(crate) fn load(bytes: &[u8], address: u32) -> i32
    requires { HasWord (defined bytes.now) address }
    ensures { result ≡ plain_word (defined bytes.now) address }
{
    bytes::word_at(bytes, place_of(address) as usize)
}

/// Writes the word at an address.
#[inline]
pub(crate) fn store(bytes: &mut [u8], address: u32, value: i32)
    requires { HasWord (defined bytes.old) address }
    ensures { defined bytes.new ≡ with_word (defined bytes.old) (place_of address) (Some value) }
{
    bytes::set_word(bytes, place_of(address) as usize, value);
}

/// The byte at an address.
#[inline]
pub(crate) fn load_byte(bytes: &[u8], address: u32) -> u8
    requires { place_of address < length (defined bytes.now) }
    ensures { result ≡ plain_byte (defined bytes.now) address }
{
    bytes::byte_at(bytes, place_of(address) as usize)
}

/// Writes the byte at an address.
#[inline]
pub(crate) fn store_byte(bytes: &mut [u8], address: u32, byte: u8)
    requires { place_of address < length (defined bytes.old) }
    ensures { defined bytes.new ≡ with_byte (defined bytes.old) (place_of address) (Some byte) }
{
    bytes::set_byte(bytes, place_of(address) as usize, byte);
}

/// `count` bytes from one address on go to another, as they were before.
#[inline]
pub(crate) fn copy(bytes: &mut [u8], source: u32, target: u32, count: u32)
    requires source { HasBytes (defined bytes.old) source count }
    requires target { HasBytes (defined bytes.old) target count }
    ensures { let before = defined bytes.old in
        defined bytes.new ≡ copied before (place_of source) (place_of target) count before }
{
    bytes::copy_inside(
        bytes,
        place_of(source) as usize,
        place_of(target) as usize,
        count as usize,
    );
}
