//! The verdicts on the altered files that are read.

use crate::accepted::{Events, pair_verified};
use crate::altered_modules::ModuleCounts;
use certificate::Module;
use conformance::{Answer, Outcome};
use machine_state::Event;
use std::alloc::Global;
use verifier::verify;

/// How many rules there are: V1 to V16.
const RULES: usize = 16;

/// How many altered files are accepted, and how many are refused by each rule. The run of an accepted one is odd if it
/// has a fault, or if it is one that the plain machine does otherwise, or one of more bytes than their budget.
#[derive(Clone, Copy)]
pub(crate) struct Verdicts {
    accepted: u64,
    refused: [u64; RULES],
    /// The sum of the offsets at which files are refused.
    offsets: u64,
}

impl Verdicts {
    pub(crate) const NONE: Verdicts = Verdicts {
        accepted: 0,
        refused: [0; RULES],
        offsets: 0,
    };

    /// Counts a file that this rule refuses at an offset. Any other number says that memory ran out.
    fn refuse(&mut self, number: u8, offset: u32) -> Outcome {
        match self.refused.get_mut(usize::from(number).wrapping_sub(1)) {
            Some(count) => {
                *count = count.wrapping_add(1);
                self.offsets = self.offsets.wrapping_add(u64::from(offset));
                Outcome::Held
            }
            None => Outcome::OutOfMemory,
        }
    }
}

impl ModuleCounts for Verdicts {
    fn add(&mut self, alloc: Global, module: &Module, events: &[Event]) -> Outcome {
        match verify(alloc, module) {
            Ok(verified) => {
                self.accepted = self.accepted.wrapping_add(1);
                let budget = module.tables().budget;
                pair_verified(alloc, module, &verified, Events::Listed { events, budget })
            }
            Err(refusal) => self.refuse(refusal.number, refusal.offset),
        }
    }

    /// The counts, and the sum of the offsets.
    fn put(&self, out: &mut Answer) {
        out.great(self.accepted);
        for count in self.refused {
            out.put(" ");
            out.great(count);
        }
        out.put(" at ");
        out.great(self.offsets);
    }
}
