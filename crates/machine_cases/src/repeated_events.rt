//! Events on one machine, one after the other.

use certificate::Module;
use conformance::{Failure, mixed};
use machine::{Checked, Stop};
use machine_state::{Effect, Event, Link};
use std::alloc::Global;

/// One byte of the running process, which then goes on.
pub(crate) const STEP: Event = Event::Step {
    slice: false,
    pick: 0,
};

/// The same, but after a jump the first ready process goes on.
pub(crate) const SLICE: Event = Event::Step {
    slice: true,
    pick: 0,
};

/// The same, but after a jump the ready process with 500 in front of it goes on.
pub(crate) const PICK: Event = Event::Step {
    slice: true,
    pick: 500,
};

/// What comes on link 0.
pub(crate) const BYTE: u8 = 1;

/// A byte comes on link 0.
pub(crate) const ARRIVAL: Event = Event::Arrive {
    link: Link::Zero,
    byte: BYTE,
};

/// The event after one that had this effect: a message that goes out is acknowledged, and once no process runs a byte
/// comes on link 0. If no process waits for that byte, the machine stands still, and the module is refused.
fn next_event(effect: Effect<'_>, step: Event) -> Result<Event, Failure> {
    match effect {
        Effect::Emitted { link, .. } => Ok(Event::Acknowledge { link }),
        Effect::Idle => Ok(ARRIVAL),
        Effect::Ran | Effect::Taken | Effect::Acknowledged => Ok(step),
        Effect::Kept | Effect::Busy | Effect::Ignored => Err(Failure::Refused),
    }
}

/// Why an event has no effect.
fn stopped(stop: Stop) -> Failure {
    match stop {
        Stop::Memory => Failure::Memory,
        Stop::Fault(_) => Failure::Refused,
    }
}

/// Whether each event ran an instruction byte, and how many were executed. Steps are `later` once a message has gone
/// out.
fn apply_repeatedly(machine: &mut Checked, later: Event, times: u64) -> Result<u64, Failure> {
    let mut checksum = 0;
    let mut step = STEP;
    let mut event = STEP;
    for _ in 0..times {
        let effect = machine.apply(event).map_err(stopped)?;
        let has_run = matches!(effect, Effect::Ran);
        if matches!(effect, Effect::Emitted { .. }) {
            step = later;
        }
        event = next_event(effect, step)?;
        checksum = mixed(checksum, u64::from(has_run));
    }
    Ok(mixed(checksum, machine.executed()))
}

/// `Checked::apply` on one machine that is loaded with this module, so that the number of repetitions is the number of
/// events. Its steps are `later` once a message has gone out on a link, and until then they are no slices.
pub(crate) fn load_and_apply(
    alloc: Global,
    module: &Module,
    later: Event,
    times: u64,
) -> Result<u64, Failure> {
    match Checked::load(alloc, module) {
        Ok(mut machine) => apply_repeatedly(&mut machine, later, times),
        Err(_) => Err(Failure::Memory),
    }
}
