//! The header.
#![tactic(auto, unfolding(crate::proofs::Opening::reading_header))]

ghost use Rattle.std.specs.Prelude.{◌≡◌, length};
ghost use Rattle.module_format.specs.Keeping.{max_code};
ghost use Rattle.module_format.specs.ReadingFile.{magic_at, sizes_at, four_lengths_at, lengths_at, flag_at};
ghost use Rattle.module_format.specs.ReadingFile.{extension_at, counts_at, header_at};
ghost use Rattle.module_format.specs.Taking.{Takes};

use crate::fault::FormatFaultKind;
use crate::limits::{
    MAX_BUDGET, MAX_CODE, MAX_CONSTANTS, MAX_DATA_WORDS, MAX_LABELS, MAX_LONG_CODE, MAX_MESSAGE,
    MAX_PARS, MAX_PROCEDURES, MAX_TABLES,
};
use crate::reading::cursor::Cursor;
use crate::tables::Version;

/// The sizes and bounds at the header's front.
#[derive(Clone, Copy)]
pub struct Sizes {
    pub code_len: u32,
    pub const_len: u32,
    pub data_words: u32,
    pub base: u32,
    pub budget: u64,
    pub finish: u32,
}

/// The magic at the front of a file.
fn read_magic(from: &mut Cursor<'_>) -> Version
    ensures { Takes (λ size. magic_at) from.old result from.new }
{
    if from.skip(b"TPM1") {
        return Version::One;
    }
    if from.skip(b"TPM2") {
        return Version::Two;
    }
    from.fail(0, FormatFaultKind::Magic);
    Version::One
}

/// The most bytes of code in a version.
pub fn max_code(version: Version) -> u32
    ensures { result ≡ max_code version }
{
    match version {
        Version::One => MAX_CODE,
        Version::Two => MAX_LONG_CODE,
    }
}

fn read_sizes(version: Version, from: &mut Cursor<'_>) -> Sizes
    ensures { Takes (λ size. sizes_at size version) from.old result from.new }
{
    let code_len = from.positive(max_code(version));
    let const_len = from.limited_u32(MAX_CONSTANTS);
    let data_words = from.positive(MAX_DATA_WORDS);
    let base = from.at_most(data_words as usize);
    let budget = from.limited_u64(MAX_BUDGET);
    let finish = from.at_most(code_len as usize);
    Sizes {
        code_len,
        const_len,
        data_words,
        base,
        budget,
        finish,
    }
}

/// The message lengths of four links.
fn read_four_lengths(from: &mut Cursor<'_>) -> (u32, u32, u32, u32)
    ensures { Takes four_lengths_at from.old result from.new }
{
    let first = from.limited_u32(MAX_MESSAGE);
    let second = from.limited_u32(MAX_MESSAGE);
    let third = from.limited_u32(MAX_MESSAGE);
    let fourth = from.limited_u32(MAX_MESSAGE);
    (first, second, third, fourth)
}

/// Those of the output links and of the input links.
fn read_lengths(from: &mut Cursor<'_>) -> [u32; 8]
    ensures { Takes lengths_at from.old result from.new }
{
    let (out0, out1, out2, out3) = read_four_lengths(from);
    let (in0, in1, in2, in3) = read_four_lengths(from);
    [out0, out1, out2, out3, in0, in1, in2, in3]
}

/// The numbers of rows, and the flag of version 2.
#[derive(Clone, Copy)]
pub struct RowCounts {
    pub procedures: u32,
    pub labels: u32,
    pub pars: u32,
    pub has_long_operations: bool,
    pub table_rows: u32,
}

/// 0 or 1.
fn read_flag(from: &mut Cursor<'_>) -> bool
    ensures { Takes flag_at from.old result from.new }
{
    from.at_most(1) == 1
}

/// The flag and the number of table rows, which version 1 doesn't have.
fn read_extension(version: Version, from: &mut Cursor<'_>) -> (bool, u32)
    ensures { Takes (λ size. extension_at size version) from.old result from.new }
{
    match version {
        Version::One => (false, 0),
        Version::Two => {
            let flag = read_flag(from);
            (flag, from.limited_u32(MAX_TABLES))
        }
    }
}

fn read_counts(version: Version, from: &mut Cursor<'_>) -> RowCounts
    ensures { Takes (λ size. counts_at size version) from.old result from.new }
{
    let procedures = from.limited_u32(MAX_PROCEDURES);
    let labels = from.limited_u32(MAX_LABELS);
    let pars = from.limited_u32(MAX_PARS);
    let (has_long_operations, table_rows) = read_extension(version, from);
    RowCounts {
        procedures,
        labels,
        pars,
        has_long_operations,
        table_rows,
    }
}

/// What is before the code.
#[derive(Clone, Copy)]
pub struct Header {
    pub version: Version,
    pub sizes: Sizes,
    pub lengths: [u32; 8],
    pub counts: RowCounts,
}

pub fn read_header(from: &mut Cursor<'_>) -> Header
    requires { from.old.size ≡ length from.old.rest.now }
    ensures { Takes (λ size. header_at) from.old result from.new }
{
    let version = read_magic(from);
    let sizes = read_sizes(version, from);
    let lengths = read_lengths(from);
    let counts = read_counts(version, from);
    Header {
        version,
        sizes,
        lengths,
        counts,
    }
}
