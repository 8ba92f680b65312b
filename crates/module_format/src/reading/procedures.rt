//! Procedure rows.
#![tactic(auto, unfolding(crate::proofs::Opening::reading_procedures))]

ghost use Rattle.std.specs.Prelude.{◌≡◌, None, map};
ghost use Rattle.module_format.specs.Contents.{procedure_of};
ghost use Rattle.module_format.specs.Offsets.{ProceduresRise};
ghost use Rattle.module_format.specs.ReadingRows.{words_range_at, region_size_at, region_kind, region_at, ends_at};
ghost use Rattle.module_format.specs.ReadingRows.{channels_at, value_at, kind_at, parameter_word_at};
ghost use Rattle.module_format.specs.ReadingRows.{parameter_rows_at, frame_start_at, frame_end_at, rising_at};
ghost use Rattle.module_format.specs.ReadingRows.{procedure_rows_at};
ghost use Rattle.module_format.specs.Taking.{Takes};

use crate::fault::FormatFaultKind;
use crate::limits::{MAX_MESSAGE, MAX_PARAMETERS};
use crate::listed::{Code, Frame};
use crate::reading::cursor::Cursor;
use crate::reading::facts::read_span;
use crate::reading::list::read_list;
use crate::rows::{Ends, Parameter, ParameterKind, ProcedureRow};
use crate::rules::{are_ends, is_frame_end, is_frame_start, is_region_size};
use crate::tables::Version;
use crate::tags::{KIND_CHANNELS, KIND_READ_REGION, KIND_VALUE, KIND_WRITTEN_REGION};
use bitflags::Flags;

/// The range of a region's words, which is the whole word in version 1.
fn read_words_range(version: Version, from: &mut Cursor<'_>) -> (i32, i32)
    ensures { Takes (λ size. words_range_at size version) from.old result from.new }
{
    match version {
        Version::One => (i32::MIN, i32::MAX),
        Version::Two => from.interval(),
    }
}

/// The bytes of a region of words, of which it has one at least.
fn read_region_size(from: &mut Cursor<'_>) -> u32
    ensures { Takes region_size_at from.old result from.new }
{
    let at = from.place();
    let bytes = from.u32();
    from.check(at, is_region_size(bytes), FormatFaultKind::Range);
    bytes
}

/// What a procedure may do with the bytes of a region.
#[derive(Clone, Copy)]
pub(crate) enum Access {
    Read,
    Write,
}

impl Access {
    /// The kind of a parameter that names a region of `size` bytes, each word of them from `lo` to `hi`.
    fn region_kind(self, size: u32, lo: i32, hi: i32) -> ParameterKind
        ensures { result ≡ region_kind self size lo hi }
    {
        match self {
            Access::Read => ParameterKind::ReadRegion { size, lo, hi },
            Access::Write => ParameterKind::WrittenRegion { size, lo, hi },
        }
    }
}

/// A region: its bytes and the range of its words.
#[inline(always)]
fn read_region(version: Version, access: Access, from: &mut Cursor<'_>) -> ParameterKind
    ensures { Takes (λ size. region_at size version (region_kind access)) from.old result from.new }
{
    let bytes = read_region_size(from);
    let (lo, hi) = read_words_range(version, from);
    access.region_kind(bytes, lo, hi)
}

/// One end of channels or both.
fn read_ends(from: &mut Cursor<'_>) -> Ends
    ensures { Takes ends_at from.old result from.new }
{
    let at = from.place();
    let bits = from.u8();
    from.check(at, are_ends(bits), FormatFaultKind::Range);
    Ends::from_bits_retain(bits)
}

/// Channels: how many, the bytes of their messages, and their ends.
fn read_channels(from: &mut Cursor<'_>) -> ParameterKind
    ensures { Takes channels_at from.old result from.new }
{
    let count = read_span(from);
    let length = from.positive(MAX_MESSAGE);
    let ends = read_ends(from);
    ParameterKind::Channels {
        count,
        length,
        ends,
    }
}

/// The bounds of a value.
fn read_value(from: &mut Cursor<'_>) -> ParameterKind
    ensures { Takes value_at from.old result from.new }
{
    let (lo, hi) = from.interval();
    ParameterKind::Value { lo, hi }
}

/// What a parameter word holds.
pub(crate) fn read_parameter_kind(version: Version, from: &mut Cursor<'_>) -> ParameterKind
    ensures { Takes (λ size. kind_at size version) from.old result from.new }
{
    let at = from.place();
    let tag = from.u8();
    match tag {
        KIND_VALUE => read_value(from),
        KIND_READ_REGION => read_region(version, Access::Read, from),
        KIND_WRITTEN_REGION => read_region(version, Access::Write, from),
        KIND_CHANNELS => read_channels(from),
        _ => {
            from.fail(at, FormatFaultKind::Range);
            ParameterKind::Value { lo: 0, hi: 0 }
        }
    }
}

/// The word of a parameter: below word `hi`, and after the parameter before, in word `low`.
pub(crate) fn read_parameter_word(hi: i32, low: u16, from: &mut Cursor<'_>) -> u16
    ensures { Takes (λ size. parameter_word_at size hi low) from.old result from.new }
{
    let at = from.place();
    let word = from.u16();
    from.check(
        at,
        word != 0 && i32::from(word) < hi,
        FormatFaultKind::Range,
    );
    from.check(at, low < word, FormatFaultKind::Order);
    word
}

/// The parameters of a procedure, after their number.
pub(crate) fn read_parameters(version: Version, hi: i32, from: &mut Cursor<'_>) -> Vec<Parameter>
    ensures { Takes (λ size. parameter_rows_at size version hi) from.old result.items from.new }
{
    let count = from.limited_u16(MAX_PARAMETERS);
    read_list(&Frame { version, hi }, 0, u32::from(count), from)
}

/// The first word of a frame.
pub(crate) fn read_frame_start(from: &mut Cursor<'_>) -> i32
    ensures { Takes frame_start_at from.old result from.new }
{
    let at = from.place();
    let lo = from.i32();
    from.check(at, is_frame_start(lo), FormatFaultKind::Range);
    lo
}

/// The first word after a frame.
pub(crate) fn read_frame_end(from: &mut Cursor<'_>) -> i32
    ensures { Takes frame_end_at from.old result from.new }
{
    let at = from.place();
    let hi = from.i32();
    from.check(at, is_frame_end(hi), FormatFaultKind::Range);
    hi
}

/// An offset in the code after `low`.
pub(crate) fn read_procedure_entry(code_len: usize, low: u32, from: &mut Cursor<'_>) -> u32
    ensures { Takes (λ size. rising_at size code_len low) from.old result from.new }
{
    let at = from.place();
    let offset = from.in_code(code_len);
    from.check(at, low < offset, FormatFaultKind::Order);
    offset
}

/// As many procedure rows as a number says.
pub fn read_procedure_rows(code: &Code, count: u32, from: &mut Cursor<'_>) -> Vec<ProcedureRow>
    ensures takes { Takes (λ size. procedure_rows_at size code.now.version code.now.len count)
        from.old (map procedure_of result.items) from.new }
    ensures rise { from.new.failure ≡ None → ProceduresRise result.items }
{
    read_list(code, 0, count, from)
}
