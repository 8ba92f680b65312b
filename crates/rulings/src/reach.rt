//! Which bytes of its regions a context may use, and what their words may be.

ghost use Rattle.std.specs.Prelude.{◌≡◌, ◌+◌, pos, negsuc, ◌+ℤ◌, ◌*ℤ◌, ◌≤ℤ◌, ◌<ℤ◌};
ghost use Rattle.rulings.specs.Reach.{word_of_byte, words_touched, lie_in, readable_size, writable_size, is_listed};
ghost use Rattle.rulings.specs.Reach.{lie_in_row, kept_range};
ghost use Rattle.word_arithmetic.specs.Range.{full};
ghost use Rattle.rulings.specs.Pointers.{ends_in};

use crate::pointers::Bounds;
use module_format::{ParameterKind, TableRow};

/// The word in which a byte of the frame lies.
pub fn word_of_offset(offset: i64) -> i64
    ensures value { result ≡ word_of_byte offset }
    ensures low { (pos 4 *ℤ result) ≤ℤ offset }
    ensures high { offset <ℤ (pos 4 *ℤ result +ℤ pos 4) }
{
    if offset < 0 {
        let back = (-1 - offset).unsigned_abs();
        return -1 - (back / 4) as i64;
    }
    (offset.unsigned_abs() / 4) as i64
}

/// The same of an offset of 32 bits.
pub fn word_of_byte(offset: i32) -> i32
    ensures value { result ≡ word_of_byte offset }
    ensures low { (pos 4 *ℤ result) ≤ℤ offset }
    ensures high { offset <ℤ (pos 4 *ℤ result +ℤ pos 4) }
{
    word_of_offset(i64::from(offset)) as i32
}

/// How many words have a byte from the first up to `end` (not included).
pub fn words_touched(first: i32, end: i32) -> u32
    requires { negsuc 2147483646 ≤ℤ end }
    ensures { result ≡ words_touched first end }
{
    let last = word_of_byte(end - 1);
    last.abs_diff(word_of_byte(first)) + 1
}

/// Whether bytes from the first up to `end` lie in a region of this size, if there is one.
pub fn lie_in(size: Option<u32>, first: i32, end: i32) -> bool
    ensures { result ≡ lie_in size first end }
{
    match size {
        Some(size) => 0 <= first && i64::from(end) <= i64::from(size),
        None => false,
    }
}

/// How many bytes a parameter of this kind names that may be read.
pub fn readable_size(kind: ParameterKind) -> Option<u32>
    ensures { result ≡ readable_size kind }
{
    match kind {
        ParameterKind::ReadRegion { size, .. } | ParameterKind::WrittenRegion { size, .. } => {
            Some(size)
        }
        _ => None,
    }
}

/// How many bytes a parameter of this kind names that may be written.
pub fn writable_size(kind: ParameterKind) -> Option<u32>
    ensures { result ≡ writable_size kind }
{
    match kind {
        ParameterKind::WrittenRegion { size, .. } => Some(size),
        _ => None,
    }
}

/// Whether a number is listed.
pub fn is_listed(numbers: &[u16], number: u16) -> bool
    ensures { result ≡ is_listed numbers.now number }
{
    for listed in numbers {
        if *listed == number {
            return true;
        }
    }
    false
}

/// Whether all bytes from the first up to `end` lie in the row of a table.
pub fn lie_in_row(first: i32, end: i64, row: &TableRow) -> bool
    ensures { result ≡ lie_in_row first end row.now }
{
    i64::from(row.start) <= i64::from(first) && end <= i64::from(row.end)
}

/// All numbers of a word.
pub fn full() -> Bounds
    ensures { ends_in result ≡ full }
{
    Bounds {
        lo: i32::MIN,
        hi: i32::MAX,
    }
}

/// The range that a parameter of this kind keeps of what it names.
pub fn kept_range(kind: ParameterKind) -> Bounds
    ensures { ends_in result ≡ kept_range kind }
{
    match kind {
        ParameterKind::ReadRegion { lo, hi, .. } | ParameterKind::WrittenRegion { lo, hi, .. } => {
            Bounds { lo, hi }
        }
        _ => full(),
    }
}
