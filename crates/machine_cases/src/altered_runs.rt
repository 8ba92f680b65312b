//! How many altered files are read and run.

use crate::altered_modules::ModuleCounts;
use crate::watching::watch;
use certificate::Module;
use conformance::{Answer, Outcome};
use machine_state::Event;
use std::alloc::Global;

/// How many altered files are read and run. A run is odd if the machine returns what none may return.
#[derive(Clone, Copy)]
pub(crate) struct Runs {
    count: u64,
}

impl Runs {
    pub(crate) const NONE: Runs = Runs { count: 0 };
}

impl ModuleCounts for Runs {
    fn add(&mut self, alloc: Global, module: &Module, events: &[Event]) -> Outcome {
        self.count = self.count.wrapping_add(1);
        watch(alloc, module, events)
    }

    fn put(&self, out: &mut Answer) {
        out.great(self.count);
        out.put(" runs");
    }
}
