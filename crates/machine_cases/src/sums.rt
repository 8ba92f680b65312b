//! A file altered in many ways, and how many of the altered files are read.

use conformance::{Answer, Outcome};
use module_cases::{READ, Tally, Ways, judge_altered, reading};
use module_format::{FormatFault, MAGIC, TRUNCATED};
use std::alloc::Global;

/// How many files are read, valid and written back, how many have which fault, and the sum of the faults' offsets.
#[derive(Clone, Copy)]
struct Sums {
    numbers: [u64; 7],
    offsets: u64,
    /// How many files are read, but not valid or written otherwise.
    wrong: u64,
}

impl Sums {
    const NONE: Sums = Sums {
        numbers: [0; 7],
        offsets: 0,
        wrong: 0,
    };

    /// Counts a file by its fault, 0 if it has none.
    fn add(&mut self, number: u8) {
        if let Some(count) = self.numbers.get_mut(usize::from(number)) {
            *count = count.wrapping_add(1);
        }
    }
}

impl Tally for Sums {
    fn count(&mut self, alloc: Global, file: &[u8], _at: usize) {
        match reading(alloc, file) {
            Ok(validity) => {
                self.wrong = self.wrong.wrapping_add(u64::from(validity != READ));
                self.add(0);
            }
            Err(FormatFault { number, offset }) => {
                self.offsets = self.offsets.wrapping_add(offset as u64);
                self.add(number);
            }
        }
    }

    /// The numbers from none to C6, and the sum of the offsets.
    fn put(&self, out: &mut Answer) {
        for number in self.numbers {
            out.great(number);
            out.put(" ");
        }
        out.put("at ");
        out.great(self.offsets);
        if self.wrong > 0 {
            out.put(", not valid or written otherwise: ");
            out.great(self.wrong);
        }
    }
}

/// How many of the altered files are read, and how many have which fault.
pub(crate) fn altered_sums(
    alloc: Global,
    file: &mut [u8],
    ways: Ways,
    expected: &str,
    out: &mut Answer,
) -> Outcome {
    let mut sums = Sums::NONE;
    judge_altered(alloc, file, ways, &mut sums, expected, out)
}

/// Whether a file is refused as cut: for its magic, if that is cut, and else at its length.
fn is_cut(alloc: Global, file: &[u8]) -> bool {
    let (number, offset) = if file.len() < 4 {
        (MAGIC, 0)
    } else {
        (TRUNCATED, file.len())
    };
    reading(alloc, file).err() == Some(FormatFault { number, offset })
}

/// How many of the shorter files that the file begins with are refused as cut.
pub(crate) fn cuts(alloc: Global, file: &[u8], out: &mut Answer) {
    let mut count = 0u64;
    for len in 0..file.len() {
        if is_cut(alloc, file.get(..len).unwrap_or(file)) {
            count = count.wrapping_add(1);
        }
    }
    out.great(count);
}
