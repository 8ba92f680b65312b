//! Runs of an accepted module, one after the other: `replay` of the events of its first-in first-out run, and `run`
//! with a reader and a writer in memory on link 0.

ghost use Rattle.std.specs.Prelude.{None, false};

use crate::repeated_events::{ARRIVAL, BYTE, STEP};
use accepted_runs::{Run, replay};
use conformance::{Failure, mixed};
use link_runner::{Failed, LinkReader, Reading, Report, RunError, Writing, run};
use machine_state::{Effect, Event, Link};
use std::alloc::Global;
use verifier::Verified;

/// The event that follows in the first-in first-out run, if one does: the next byte of the running process, or else a
/// byte on link 0, which some process waits for.
fn wanted_event(run: &Run) -> Option<Event> {
    if run.running() {
        Some(STEP)
    } else if run.wants(Link::Zero) {
        Some(ARRIVAL)
    } else {
        None
    }
}

/// Lets an event happen, and returns the one that follows, which acknowledges a message.
fn following_event(run: &mut Run, event: Event) -> Option<Event> {
    if let Effect::Emitted { link, .. } = run.apply(event) {
        return Some(Event::Acknowledge { link });
    }
    wanted_event(run)
}

/// Appends the events of a run that is loaded. `false` if memory runs out.
fn add_events(events: &mut Vec<Event>, run: &mut Run) -> bool {
    let mut next = Some(STEP);
    for _ in 0..u64::MAX {
        let Some(event) = next else {
            break;
        };
        if events.push(event).is_err() {
            return false;
        }
        next = following_event(run, event);
    }
    true
}

/// Appends the events of the run of an accepted module. `false` if memory runs out.
fn add_events_of(alloc: Global, verified: &Verified, events: &mut Vec<Event>) -> bool {
    match Run::load(alloc, verified) {
        Ok(mut run) => add_events(events, &mut run),
        Err(_) => false,
    }
}

/// The bytes executed and the bytes that went out on link 0.
fn replay_events(
    alloc: Global,
    verified: &Verified,
    events: &[Event],
    times: u64,
) -> Result<u64, Failure> {
    let mut checksum = 0;
    for _ in 0..times {
        match replay(alloc, verified, events) {
            Ok(replay) => {
                checksum = mixed(mixed(checksum, replay.executed), replay.out[0].len() as u64);
            }
            Err(_) => return Err(Failure::Memory),
        }
    }
    Ok(checksum)
}

/// The same, of the first-in first-out run of an accepted module.
pub(crate) fn replay_repeatedly(
    alloc: Global,
    verified: &Verified,
    times: u64,
) -> Result<u64, Failure> {
    let mut events = Vec::new(alloc);
    if !add_events_of(alloc, verified, &mut events) {
        return Err(Failure::Memory);
    }
    replay_events(alloc, verified, &events, times)
}

/// A reader that always has another byte.
#[derive(Drop)]
struct Endless;

impl LinkReader for Endless {
    ghost left = { λ _. None };

    ghost failed = { λ _. false };

    fn read_byte(&mut self) -> Result<Option<u8>, Failed> {
        Ok(Some(BYTE))
    }

    fn has_failed(&self) -> bool {
        false
    }
}

/// Why a run has no report.
fn failure(error: RunError) -> Failure {
    match error {
        RunError::Memory => Failure::Memory,
        _ => Failure::Refused,
    }
}

/// A run that has as many bytes to read as it asks for.
fn run_endlessly(alloc: Global, verified: &Verified) -> Result<Report, RunError> {
    let mut readers = [Some(Endless), None, None, None];
    let mut writers = [Some(Writing::new(Vec::new(alloc))), None, None, None];
    run(alloc, verified, &mut readers, &mut writers)
}

/// A run that has these bytes to read.
fn run_once(alloc: Global, verified: &Verified, bytes: &[u8]) -> Result<Report, RunError> {
    let mut readers = [Some(Reading::new(bytes)), None, None, None];
    let mut writers = [Some(Writing::new(Vec::new(alloc))), None, None, None];
    run(alloc, verified, &mut readers, &mut writers)
}

/// The bytes executed and the bytes that went out on link 0, in runs that have these bytes to read.
fn run_times(alloc: Global, verified: &Verified, bytes: &[u8], times: u64) -> Result<u64, Failure> {
    let mut checksum = 0;
    for _ in 0..times {
        match run_once(alloc, verified, bytes) {
            Ok(report) => checksum = mixed(mixed(checksum, report.executed), report.written[0]),
            Err(error) => return Err(failure(error)),
        }
    }
    Ok(checksum)
}

/// The same, in runs that have as many bytes to read as they ask for.
pub(crate) fn run_repeatedly(
    alloc: Global,
    verified: &Verified,
    times: u64,
) -> Result<u64, Failure> {
    let mut bytes = Vec::new(alloc);
    match run_endlessly(alloc, verified) {
        Ok(report) => {
            if bytes.resize(report.read[0] as usize, BYTE).is_err() {
                return Err(Failure::Memory);
            }
        }
        Err(error) => return Err(failure(error)),
    }
    run_times(alloc, verified, &bytes, times)
}
