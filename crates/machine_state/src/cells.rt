//! Bytes with tags, as slices: a byte is defined where its tag is set.

ghost use Rattle.std.specs.Prelude.{◌≡◌, ◌+◌, ◌<◌, ◌≤◌, ◌^◌, is_some, length};
ghost use Rattle.machine_state.specs.LocalStep.{copied};
ghost use Rattle.machine_state.specs.Memory.{byte_at, with_byte, word_at, with_word};
ghost use Rattle.machine_state.specs.Spans.{all_places};
ghost use Rattle.machine_state.specs.Tagged.{tagged_cells};

use crate::process::Word;

/// The byte at a place, none where it is undefined or outside.
#[tactic(auto, using(crate::proofs::TaggedCells::byte_reads))]
pub(crate) fn byte_at(bytes: &[u8], tags: &[bool], place: usize) -> Option<u8>
    requires { length tags.now ≡ length bytes.now }
    ensures { result ≡ byte_at (tagged_cells bytes.now tags.now) place }
{
    if place < bytes.len() && tags[place] {
        Some(bytes[place])
    } else {
        None
    }
}

/// Whether `count` bytes from a place on are defined.
pub(crate) fn are_defined(bytes: &[u8], tags: &[bool], place: usize, count: usize) -> bool
    requires lengths { length tags.now ≡ length bytes.now }
    requires place { place < 2 ^ 32 }
    requires count { count < 2 ^ 32 }
    ensures { let cells = tagged_cells bytes.now tags.now in
        result ≡ all_places (λ place. is_some (byte_at cells place)) place count }
{
    for k in 0..count {
        if byte_at(bytes, tags, place + k).is_none() {
            return false;
        }
    }
    true
}

/// Writes the byte at a place; outside nothing changes.
#[tactic(auto, using(crate::proofs::TaggedCells::byte_writes))]
pub(crate) fn set_byte(bytes: &mut [u8], tags: &mut [bool], place: usize, byte: Option<u8>)
    requires { length tags.old ≡ length bytes.old }
    ensures { tagged_cells bytes.new tags.new ≡ with_byte (tagged_cells bytes.old tags.old) place byte }
{
    if place < bytes.len() {
        tags[place] = byte.is_some();
        if let Some(byte) = byte {
            bytes[place] = byte;
        }
    }
}

/// The word at a place, the least significant byte first.
#[tactic(auto, unfolding(crate::specs::Memory::word_at))]
pub(crate) fn word_at(bytes: &[u8], tags: &[bool], place: usize) -> Word
    requires lengths { length tags.now ≡ length bytes.now }
    requires place { place < 2 ^ 32 }
    ensures { result ≡ word_at (tagged_cells bytes.now tags.now) place }
{
    let first = byte_at(bytes, tags, place)?;
    let second = byte_at(bytes, tags, place + 1)?;
    let third = byte_at(bytes, tags, place + 2)?;
    let fourth = byte_at(bytes, tags, place + 3)?;
    Some(i32::from_le_bytes([first, second, third, fourth]))
}

/// Writes the word at a place, the least significant byte first.
#[tactic(auto, unfolding(crate::specs::Memory::with_word))]
pub(crate) fn set_word(bytes: &mut [u8], tags: &mut [bool], place: usize, value: Word)
    requires lengths { length tags.old ≡ length bytes.old }
    requires place { place < 2 ^ 32 }
    ensures { tagged_cells bytes.new tags.new ≡ with_word (tagged_cells bytes.old tags.old) place value }
{
    match value {
        Some(value) => {
            let [first, second, third, fourth] = value.to_le_bytes();
            set_byte(bytes, tags, place, Some(first));
            set_byte(bytes, tags, place + 1, Some(second));
            set_byte(bytes, tags, place + 2, Some(third));
            set_byte(bytes, tags, place + 3, Some(fourth));
        }
        None => {
            set_byte(bytes, tags, place, None);
            set_byte(bytes, tags, place + 1, None);
            set_byte(bytes, tags, place + 2, None);
            set_byte(bytes, tags, place + 3, None);
        }
    }
}

/// Copies `count` bytes from one place to another, the first byte first: so none is overwritten before it is copied.
fn copy_down(bytes: &mut [u8], tags: &mut [bool], source: usize, to: usize, count: usize)
    requires lengths { length tags.old ≡ length bytes.old }
    requires down { to ≤ source }
    requires source { source < 2 ^ 32 }
    requires count { count < 2 ^ 32 }
    ensures { let before = tagged_cells bytes.old tags.old in
        tagged_cells bytes.new tags.new ≡ copied before source to count before }
{
    for k in 0..count {
        let byte = byte_at(bytes, tags, source + k);
        set_byte(bytes, tags, to + k, byte);
    }
}

/// Copies `count` bytes from one place to another, the last byte first: so none is overwritten before it is copied.
fn copy_up(bytes: &mut [u8], tags: &mut [bool], source: usize, to: usize, count: usize)
    requires lengths { length tags.old ≡ length bytes.old }
    requires up { source ≤ to }
    requires to { to < 2 ^ 32 }
    requires count { count < 2 ^ 32 }
    ensures { let before = tagged_cells bytes.old tags.old in
        tagged_cells bytes.new tags.new ≡ copied before source to count before }
{
    for k in 0..count {
        let left = count - 1 - k;
        let byte = byte_at(bytes, tags, source + left);
        set_byte(bytes, tags, to + left, byte);
    }
}

/// Copies `count` bytes from one place to another, as they were before.
pub(crate) fn copy(bytes: &mut [u8], tags: &mut [bool], source: usize, to: usize, count: usize)
    requires lengths { length tags.old ≡ length bytes.old }
    requires source { source < 2 ^ 32 }
    requires to { to < 2 ^ 32 }
    requires count { count < 2 ^ 32 }
    ensures { let before = tagged_cells bytes.old tags.old in
        tagged_cells bytes.new tags.new ≡ copied before source to count before }
{
    if to <= source {
        copy_down(bytes, tags, source, to, count);
    } else {
        copy_up(bytes, tags, source, to, count);
    }
}
