//! A file altered in many ways, and the modules that altered files are.

use crate::setting::Setting;
use certificate::Module;
use conformance::{Answer, Outcome};
use machine_state::Event;
use module_cases::{Tally, Ways, judge_altered, repeated};
use module_format::MEMORY;
use std::alloc::Global;

/// A byte of a file that was set to another value.
#[derive(Clone, Copy)]
struct Alteration {
    at: usize,
    value: u8,
}

/// What is counted of the modules that altered files are.
pub(crate) trait ModuleCounts: Drop {
    /// Counts a module, and returns what came of these events: not held if a run was odd.
    fn add(&mut self, alloc: Global, module: &Module, events: &[Event]) -> Outcome;

    /// Appends the counts.
    fn put(&self, out: &mut Answer);
}

/// The altered files that are read: what is counted of their modules, and how many of their runs are odd.
#[derive(Drop)]
struct Modules<'e, C: ModuleCounts> {
    events: &'e [Event],
    counts: C,
    odd: u64,
    first_odd: Option<Alteration>,
    is_out_of_memory: bool,
}

impl<'e, C: ModuleCounts> Modules<'e, C> {
    fn of(events: &'e [Event], counts: C) -> Self {
        Modules {
            events,
            counts,
            odd: 0,
            first_odd: None,
            is_out_of_memory: false,
        }
    }

    /// Takes up what came of the events where the file was altered so.
    fn add(&mut self, outcome: Outcome, alteration: Alteration) {
        match outcome {
            Outcome::Held => {}
            Outcome::OutOfMemory => self.is_out_of_memory = true,
            _ => {
                self.odd = self.odd.wrapping_add(1);
                self.first_odd = self.first_odd.or(Some(alteration));
            }
        }
    }
}

impl<C: ModuleCounts> Tally for Modules<'_, C> {
    fn count(&mut self, alloc: Global, file: &[u8], at: usize) {
        match Module::read(alloc, file) {
            Ok(module) => {
                let value = file.get(at).copied().unwrap_or(0);
                let outcome = self.counts.add(alloc, &module, self.events);
                self.add(outcome, Alteration { at, value });
            }
            Err(fault) => self.is_out_of_memory |= fault.number == MEMORY,
        }
    }

    /// The counts, how many runs were odd, if any, and how the file of the first odd one is altered.
    fn put(&self, out: &mut Answer) {
        self.counts.put(out);
        if let Some(first) = self.first_odd {
            out.put(", odd: ");
            out.great(self.odd);
            out.put(", first ");
            out.great(first.at as u64);
            out.put(":1=");
            out.great(u64::from(first.value));
        }
        if self.is_out_of_memory {
            out.fail();
        }
    }
}

/// What the modules come to that the altered files are, where the events of a run happen to them again and again.
pub(crate) fn judge_modules<C: ModuleCounts>(
    alloc: Global,
    setting: &mut Setting,
    ways: Ways,
    counts: C,
    expected: &str,
    out: &mut Answer,
) -> Outcome {
    let events = match repeated(alloc, setting.events.as_str()) {
        Ok(events) => events,
        Err(outcome) => return outcome,
    };
    let mut modules = Modules::of(&events, counts);
    let file = setting.file.bytes_mut();
    judge_altered(alloc, file, ways, &mut modules, expected, out)
}
