//! Lengths, and the sums of those before each.

ghost use Rattle.std.specs.Prelude.{◌≡◌, ◌≢◌, ◌+◌, ◌≤◌, ◌<◌, sum, length, IfOk, Err};
ghost use Rattle.module_builder.specs.Spacing.{AreOffsets};

use crate::fault::GenFault;
use crate::offsets::Offsets;
use module_format::MAX_LONG_CODE;
use std::alloc::Global;

/// A length for each item, and where each item begins by them.
#[derive(Drop)]
pub(crate) struct Spacing {
    pub(crate) lengths: Vec<u8>,
    /// Where each item begins, and then the code's end.
    pub(crate) offsets: Vec<u32>,
    ghost follow: { AreOffsets lengths.items offsets.items },
}

impl Spacing {
    /// The places that follow from lengths, if the code isn't too long.
    pub(crate) fn of(alloc: Global, lengths: Vec<u8>) -> Result<Spacing, GenFault>
        ensures same { IfOk result (λ spacing. spacing.lengths.items ≡ lengths.items) }
        ensures limit { result ≡ Err GenFault.Limit → MAX_LONG_CODE < sum lengths.items }
        ensures faults { result ≢ Err GenFault.Invalid }
    {
        let mut offsets = Vec::with_capacity(alloc, lengths.len() + 1)?;
        let mut end = 0;
        offsets.push(end)?;
        for len in &lengths {
            end += u32::from(*len);
            if end > MAX_LONG_CODE {
                return Err(GenFault::Limit);
            }
            offsets.push(end)?;
        }
        Ok(Spacing { lengths, offsets })
    }
}

impl Offsets for Spacing {
    ghost lengths = { λ spacing. spacing.lengths.items };

    fn offset(&self, number: usize) -> u32 {
        self.offsets[number]
    }

    fn end(&self) -> u32 {
        self.offset(self.lengths.len())
    }
}
