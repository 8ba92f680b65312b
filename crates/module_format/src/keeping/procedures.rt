//! Kinds of parameters.

ghost use Rattle.std.specs.Prelude.{◌≡◌, ◌↔◌, IsTrue};
ghost use Rattle.module_format.specs.Procedures.{IsRegion, AreChannels, KindKeeps};

use crate::rows::{Ends, ParameterKind};
use crate::rules::{are_ends, is_message_length, is_region_size};
use bitflags::Flags;

/// A region of words from `lo` to `hi`.
fn is_region(size: u32, lo: i32, hi: i32) -> bool
    ensures { IsTrue result ↔ IsRegion size lo hi }
{
    is_region_size(size) && lo <= hi
}

/// Channels, with one of their ends or both.
fn are_channels(count: u32, length: u32, ends: Ends) -> bool
    ensures { IsTrue result ↔ AreChannels count length ends.0 }
{
    count > 0 && is_message_length(length) && are_ends(ends.bits())
}

/// What a parameter word holds.
pub(crate) fn kind_keeps(kind: &ParameterKind) -> bool
    ensures { IsTrue result ↔ KindKeeps kind.now }
{
    match *kind {
        ParameterKind::Value { lo, hi } => lo <= hi,
        ParameterKind::ReadRegion { size, lo, hi } => is_region(size, lo, hi),
        ParameterKind::WrittenRegion { size, lo, hi } => is_region(size, lo, hi),
        ParameterKind::Channels {
            count,
            length,
            ends,
        } => are_channels(count, length, ends),
    }
}
