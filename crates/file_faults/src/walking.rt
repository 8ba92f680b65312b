//! The field of a file that has an offset, or in which the file ends.
#![tactic(auto, unfolding(crate::specs::Walking::value_at, crate::specs::Walking::end_of, crate::specs::Walking::step))]

ghost use Rattle.std.specs.Prelude.{◌≡◌, ◌≤◌, ◌+◌, length, drop};
ghost use Rattle.file_faults.specs.Walking.{bytes_read, end_of, first, found_at, front, size_of, step, value_at};
ghost use Rattle.file_faults.specs.Walking.{walked};

use crate::fields::{Field, Group, Number, field_of};
use crate::walks::{Counts, Walk, next_field};
use byteorder::{ByteOrder, LittleEndian};

/// A field where it begins.
#[derive(Clone, Copy)]
pub(crate) struct Found {
    pub at: usize,
    pub walk: Walk,
}

/// How many bytes are read as the number of a field.
fn bytes_read(number: Number) -> usize
    ensures value { result ≡ bytes_read number }
    ensures low { 1 ≤ result }
    ensures high { result ≤ 8 }
{
    match number {
        Number::Short => 2,
        Number::Word | Number::SignedWord => 4,
        Number::Long => 8,
        _ => 1,
    }
}

/// The number that is read at a field, or 0 if the file does not have so many bytes.
pub(crate) fn value_at(bytes: &[u8], found: Found) -> u64
    ensures { result ≡ value_at bytes.now found }
{
    let count = bytes_read(field_of(found.walk.field).number);
    if bytes.len().saturating_sub(found.at) < count {
        return 0;
    }
    LittleEndian::read_uint(&bytes[found.at..], count)
}

/// How many bytes a field has.
fn size_of(walk: Walk, number: Number) -> u64
    ensures { result ≡ size_of walk number }
{
    match number {
        Number::CodeBytes => walk.code,
        Number::ConstantBytes => walk.constants,
        Number::Nothing => 0,
        _ => bytes_read(number) as u64,
    }
}

/// The offset after a field.
fn end_of(found: Found) -> u128
    ensures { result ≡ end_of found }
{
    let number = field_of(found.walk.field).number;
    found.at as u128 + u128::from(size_of(found.walk, number))
}

/// The front of a file.
fn front() -> Walk
    ensures { result ≡ front }
{
    Walk {
        field: Field::Magic,
        group: Group::File,
        is_two: false,
        code: 0,
        constants: 0,
        data_words: 0,
        choice: 0,
        counts: Counts {
            links: 8,
            registers: 3,
            ..Counts::default()
        },
        left: Counts::default(),
    }
}

/// One step of the walk to an offset. It stays at the field that has the offset, and at one that the file does not have
/// whole.
fn step(bytes: &[u8], target: usize, found: Found) -> Found
    ensures { result ≡ step bytes.now target found }
{
    let end = end_of(found);
    if (target as u128) < end || (bytes.len() as u128) < end {
        return found;
    }
    Found {
        at: end as usize,
        walk: next_field(found.walk, value_at(bytes, found)),
    }
}

/// The field of a file that has an offset. It takes time linear in the bytes.
pub(crate) fn found_at(bytes: &[u8], target: usize) -> Found
    ensures { result ≡ found_at bytes.now target }
{
    let first = Found {
        at: 0,
        walk: front(),
    };
    let second = step(bytes, target, first);
    let third = step(bytes, target, second);
    let mut found = step(bytes, target, third);
    for _number in 0..bytes.len() {
        found = step(bytes, target, found);
    }
    found
}
