//! Kinds of parameters.

ghost use Rattle.std.specs.Prelude.{◌++◌};
ghost use Rattle.module_format.specs.Spelling.{u32_bytes, range_bytes, kind_bytes};
ghost use Rattle.module_format.specs.Writable.{Writes};

use crate::rows::ParameterKind;
use crate::tables::Version;
use crate::tags::{KIND_CHANNELS, KIND_READ_REGION, KIND_VALUE, KIND_WRITTEN_REGION};
use crate::writing::writer::Writer;
use bitflags::Flags;

/// The range of a region's words, which version 1 doesn't have.
fn put_range(out: &mut Writer, version: Version, lo: i32, hi: i32)
    ensures { Writes out.old (range_bytes version lo hi) out.new }
{
    match version {
        Version::One => {}
        Version::Two => {
            out.i32(lo);
            out.i32(hi);
        }
    }
}

/// A region's size and range.
fn put_region(out: &mut Writer, version: Version, size: u32, lo: i32, hi: i32)
    ensures { Writes out.old (u32_bytes size ++ range_bytes version lo hi) out.new }
{
    out.u32(size);
    put_range(out, version, lo, hi);
}

/// A kind, and what belongs to it.
pub(crate) fn put_kind(out: &mut Writer, version: Version, kind: &ParameterKind)
    ensures { Writes out.old (kind_bytes version kind.now) out.new }
{
    match *kind {
        ParameterKind::Value { lo, hi } => {
            out.u8(KIND_VALUE);
            out.i32(lo);
            out.i32(hi);
        }
        ParameterKind::ReadRegion { size, lo, hi } => {
            out.u8(KIND_READ_REGION);
            put_region(out, version, size, lo, hi);
        }
        ParameterKind::WrittenRegion { size, lo, hi } => {
            out.u8(KIND_WRITTEN_REGION);
            put_region(out, version, size, lo, hi);
        }
        ParameterKind::Channels {
            count,
            length,
            ends,
        } => {
            out.u8(KIND_CHANNELS);
            out.u32(count);
            out.u32(length);
            out.u8(ends.bits());
        }
    }
}
