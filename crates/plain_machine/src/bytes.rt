//! Plain bytes, read and written by place.

ghost use Rattle.std.specs.Prelude.{◌≡◌, ◌+◌, ◌<◌, ◌≤◌, ◌^◌, length, Some, is_some, IsTrue};
ghost use Rattle.machine_state.specs.Memory.{byte_at, with_byte, word_at, with_word};
ghost use Rattle.machine_state.specs.Spans.{all_places};
ghost use Rattle.machine_state.specs.LocalStep.{copied};
ghost use Rattle.plain_machine.specs.Plain.{defined};

/// How many bytes a word has.
const WORD: usize = 4;

/// The byte at a place.
#[inline]
#[tactic(auto, using(crate::proofs::PlainBytes::byte_is))]
pub(crate) fn byte_at(bytes: &[u8], place: usize) -> u8
    requires { place < length bytes.now }
    ensures { Some result ≡ byte_at (defined bytes.now) place }
{
    bytes[place]
}

/// Writes the byte at a place.
#[inline]
#[tactic(auto, using(crate::proofs::PlainBytes::byte_written))]
pub(crate) fn set_byte(bytes: &mut [u8], place: usize, byte: u8)
    requires { place < length bytes.old }
    ensures { defined bytes.new ≡ with_byte (defined bytes.old) place (Some byte) }
{
    bytes[place] = byte;
}

/// The word at a place, the least significant byte first.
#[inline]
#[tactic(auto, using(crate::proofs::PlainBytes::word_is))]
pub(crate) fn word_at(bytes: &[u8], place: usize) -> i32
    requires { place + 4 ≤ length bytes.now }
    ensures { Some result ≡ word_at (defined bytes.now) place }
{
    i32::from_le_bytes([
        bytes[place],
        bytes[place + 1],
        bytes[place + 2],
        bytes[place + 3],
    ])
}

/// Writes the word at a place, the least significant byte first.
#[inline]
#[tactic(auto, unfolding(machine_state::specs::Memory::with_word))]
pub(crate) fn set_word(bytes: &mut [u8], place: usize, value: i32)
    requires { place + 4 ≤ length bytes.old }
    ensures { defined bytes.new ≡ with_word (defined bytes.old) place (Some value) }
{
    let [first, second, third, fourth] = value.to_le_bytes();
    set_byte(bytes, place, first);
    set_byte(bytes, place + 1, second);
    set_byte(bytes, place + 2, third);
    set_byte(bytes, place + 3, fourth);
}

/// `count` bytes from one place on, all of which lie in memory, go to another, as they were before. Outside nothing
/// changes.
pub(crate) fn copy(bytes: &mut [u8], source: usize, target: usize, count: usize)
    requires defined { IsTrue (all_places (λ p. is_some (byte_at (defined bytes.old) p)) source count) }
    requires source { source < 2 ^ 32 }
    requires count { count < 2 ^ 32 }
    ensures { let before = defined bytes.old in
        defined bytes.new ≡ copied before source target count before }
{
    let inside = count.min(bytes.len().saturating_sub(target));
    if inside > 0 {
        bytes.copy_within(source..source + inside, target);
    }
}

/// The four bytes from one place on go to another, as they were before. All lie in memory.
#[inline]
#[tactic(auto, using(crate::proofs::PlainBytes::sizes), unfolding(machine_state::specs::LocalStep::copied))]
fn copy_word(bytes: &mut [u8], source: usize, target: usize)
    requires source { source + 4 ≤ length bytes.old }
    requires target { target + 4 ≤ length bytes.old }
    ensures { let before = defined bytes.old in
        defined bytes.new ≡ copied before source target 4 before }
{
    let first = byte_at(bytes, source);
    let second = byte_at(bytes, source + 1);
    let third = byte_at(bytes, source + 2);
    let fourth = byte_at(bytes, source + 3);
    set_byte(bytes, target, first);
    set_byte(bytes, target + 1, second);
    set_byte(bytes, target + 2, third);
    set_byte(bytes, target + 3, fourth);
}

/// `count` bytes from one place on go to another, as they were before. All lie in memory.
#[inline]
pub(crate) fn copy_inside(bytes: &mut [u8], source: usize, target: usize, count: usize)
    requires source { 0 < count → source + count ≤ length bytes.old }
    requires target { 0 < count → target + count ≤ length bytes.old }
    ensures { let before = defined bytes.old in
        defined bytes.new ≡ copied before source target count before }
{
    if count == WORD {
        copy_word(bytes, source, target);
    } else if count > 0 {
        bytes.copy_within(source..source + count, target);
    }
}
