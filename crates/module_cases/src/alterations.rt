//! A file altered in many ways.

use conformance::{Answer, Outcome, judged};
use std::alloc::Global;

/// The ways in which a file is altered.
#[derive(Clone, Copy)]
pub enum Ways {
    /// Each byte from one place up to another set to each other value.
    Bytes { from: u32, to: u32 },
    /// Each bit altered.
    Bits,
}

/// What looks at altered files one by one.
pub trait Tally {
    /// Takes up a file whose byte at this place was altered.
    fn count(&mut self, alloc: Global, file: &[u8], at: usize);

    /// Appends what they came to.
    fn put(&self, out: &mut Answer);
}

fn set(file: &mut [u8], at: usize, value: u8) {
    if let Some(byte) = file.get_mut(at) {
        *byte = value;
    }
}

/// Counts the files with one byte set to each other value.
fn alter_byte(alloc: Global, file: &mut [u8], at: usize, tally: &mut impl Tally) {
    let own = file.get(at).copied().unwrap_or(0);
    for value in 0..=255 {
        if value != own {
            set(file, at, value);
            tally.count(alloc, file, at);
        }
    }
    set(file, at, own);
}

/// Counts the files with each bit of one byte altered.
fn alter_bits(alloc: Global, file: &mut [u8], at: usize, tally: &mut impl Tally) {
    let own = file.get(at).copied().unwrap_or(0);
    for bit in [1, 2, 4, 8, 16, 32, 64, 128] {
        set(file, at, own ^ bit);
        tally.count(alloc, file, at);
    }
    set(file, at, own);
}

/// Counts the files that a file becomes in these ways. It is as before afterwards.
fn alter(alloc: Global, file: &mut [u8], ways: Ways, tally: &mut impl Tally) {
    match ways {
        Ways::Bytes { from, to } => {
            for at in from..to {
                alter_byte(alloc, file, at as usize, tally);
            }
        }
        Ways::Bits => {
            for at in 0..file.len() {
                alter_bits(alloc, file, at, tally);
            }
        }
    }
}

/// What the files come to that a file becomes in these ways. It is as before afterwards.
pub fn judge_altered(
    alloc: Global,
    file: &mut [u8],
    ways: Ways,
    tally: &mut impl Tally,
    expected: &str,
    out: &mut Answer,
) -> Outcome {
    alter(alloc, file, ways, tally);
    tally.put(out);
    judged(out, expected)
}
