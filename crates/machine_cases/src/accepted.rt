//! Whether both machines do the same with an accepted module.

use crate::pairing::{listed_events, written_events};
use crate::scheduling::{SCHEDULES, Schedule, scheduled_events};
use accepted_runs::Run;
use certificate::Module;
use conformance::Outcome;
use machine::Checked;
use machine_state::Event;
use std::alloc::Global;
use verifier::{Verified, verify};

/// What is to happen to both machines.
#[derive(Clone, Copy)]
pub(crate) enum Events<'e> {
    /// The events of a text.
    Written(&'e str),
    /// These events, within a budget.
    Listed { events: &'e [Event], budget: u64 },
    /// Steps by a schedule, with bytes and acknowledgements on all links.
    Scheduled(Schedule),
}

/// Whether both machines do the same, and keep to the budget, if one is asked of them.
fn outcome_of(checked: &mut Checked, run: &mut Run, events: Events) -> Outcome {
    match events {
        Events::Written(text) => written_events(checked, run, text),
        Events::Scheduled(schedule) => scheduled_events(checked, run, schedule),
        Events::Listed { events, budget } => match listed_events(checked, run, events) {
            Outcome::Held => Outcome::of(checked.executed() <= budget),
            outcome => outcome,
        },
    }
}

/// The same, of the two machines of an accepted module.
pub(crate) fn pair_verified(
    alloc: Global,
    module: &Module,
    verified: &Verified,
    events: Events,
) -> Outcome {
    match (Checked::load(alloc, module), Run::load(alloc, verified)) {
        (Ok(mut checked), Ok(mut run)) => outcome_of(&mut checked, &mut run, events),
        _ => Outcome::OutOfMemory,
    }
}

/// Whether the events of a run do the same on both machines, if the module is accepted.
pub(crate) fn pair(alloc: Global, module: &Module, text: &str) -> Outcome {
    match verify(alloc, module) {
        Ok(verified) => pair_verified(alloc, module, &verified, Events::Written(text)),
        Err(_) => Outcome::Held,
    }
}

/// Whether both machines do the same with an accepted module by each schedule.
pub(crate) fn pair_schedules(alloc: Global, module: &Module, verified: &Verified) -> Outcome {
    for schedule in SCHEDULES {
        let outcome = pair_verified(alloc, module, verified, Events::Scheduled(schedule));
        if outcome != Outcome::Held {
            return outcome;
        }
    }
    Outcome::Held
}
