//! Rules of single values, which are tested when a file is read and when tables are checked.

ghost use Rattle.std.specs.Prelude.{◌≡◌, ◌↔◌, ◌<◌, ◌≤◌, IsTrue};
ghost use Rattle.module_format.specs.Order.{is_multiple_of_four, is_stepped};
ghost use Rattle.module_format.specs.Facts.{is_loop_length};
ghost use Rattle.module_format.specs.Procedures.{is_region_size, are_ends, is_frame_start, is_frame_end};

use crate::limits::{MAX_FRAME_END, MAX_MESSAGE, MIN_FRAME_END, MIN_FRAME_START};

/// Whether a count of bytes is one of whole words.
pub(crate) fn is_multiple_of_four(bytes: u32) -> bool
    ensures { result ≡ is_multiple_of_four bytes }
{
    bytes % 4 == 0
}

/// Whether an offset is a multiple of a word's bytes.
pub(crate) fn is_stepped(offset: i32) -> bool
    ensures { result ≡ is_stepped offset }
{
    is_multiple_of_four(offset.unsigned_abs())
}

/// Whether a loop whose index begins at `base` may have `count` turns: one at least, and the number and the last index
/// are words.
pub(crate) fn is_loop_length(base: i32, count: u32) -> bool
    ensures { result ≡ is_loop_length base count }
{
    let end = i64::from(base) + i64::from(count);
    1 <= count && count <= i32::MAX as u32 && end <= 2_147_483_648
}

/// Whether a region may have `bytes` bytes: whole words, one at least.
pub(crate) fn is_region_size(bytes: u32) -> bool
    ensures { result ≡ is_region_size bytes }
{
    4 <= bytes && is_multiple_of_four(bytes)
}

/// Whether bits are a set of ends that channels may bring: one end or both.
pub(crate) fn are_ends(bits: u8) -> bool
    ensures { result ≡ are_ends bits }
{
    1 <= bits && bits <= 3
}

/// Whether a procedure's frame may begin at a word.
pub(crate) fn is_frame_start(lo: i32) -> bool
    ensures { result ≡ is_frame_start lo }
{
    MIN_FRAME_START <= lo && lo <= 0
}

/// Whether a procedure's frame may end before a word.
pub(crate) fn is_frame_end(hi: i32) -> bool
    ensures { result ≡ is_frame_end hi }
{
    MIN_FRAME_END <= hi && hi <= MAX_FRAME_END
}

/// Whether a message may have `bytes` bytes: one at least.
pub(crate) fn is_message_length(bytes: u32) -> bool
    ensures { IsTrue result ↔ ((1 ≤ bytes) × (bytes ≤ MAX_MESSAGE)) }
{
    1 <= bytes && bytes <= MAX_MESSAGE
}

/// Whether an offset lies in code of a length, after another offset.
pub(crate) fn lies_after(low: u32, offset: u32, code_len: usize) -> bool
    ensures { IsTrue result ↔ ((low < offset) × (offset < code_len)) }
{
    low < offset && (offset as usize) < code_len
}
