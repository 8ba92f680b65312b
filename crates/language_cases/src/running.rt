//! Runs of modules under each schedule.

use crate::course::Course;
use crate::given::{Given, LINKS};
use crate::schedule::{SCHEDULES, Schedule};
use certificate::Module;
use conformance::{Answer, Outcome};
use machine::{Checked, Stop};
use machine_state::{Effect, Event, Link};
use std::alloc::Global;

/// How a module is run: when processes give way, and what is on its links.
#[derive(Clone, Copy)]
struct Terms<'g> {
    schedule: Schedule,
    given: &'g Given,
}

/// What came of a step.
enum Turn {
    Ran,
    Sent { link: Link },
    Idle,
}

/// One byte of the running process. What it sends is kept.
fn take_turn(machine: &mut Checked, schedule: Schedule, course: &mut Course) -> Result<Turn, Stop> {
    match machine.apply(schedule.step())? {
        Effect::Emitted { link, bytes } => {
            course.keep(link, bytes);
            Ok(Turn::Sent { link })
        }
        Effect::Idle => Ok(Turn::Idle),
        _ => Ok(Turn::Ran),
    }
}

/// A message went out on a link: whoever listens there takes it.
fn answer(
    machine: &mut Checked,
    link: Link,
    given: &Given,
    course: &mut Course,
) -> Result<(), Stop> {
    if given.has_listener(link) {
        machine.apply(Event::Acknowledge { link })?;
    } else {
        course.leave_unheard(link);
    }
    Ok(())
}

/// The processes run until none is running.
fn go_on(machine: &mut Checked, terms: Terms, course: &mut Course) -> Result<(), Stop> {
    for _ in 0..u64::MAX {
        match take_turn(machine, terms.schedule, course)? {
            Turn::Ran => {}
            Turn::Sent { link } => answer(machine, link, terms.given, course)?,
            Turn::Idle => break,
        }
    }
    Ok(())
}

/// The lowest link that a process waits for and that has a byte, with that byte.
fn awaited(machine: &Checked, given: &Given, course: &Course) -> Option<(Link, u8)> {
    for link in &LINKS {
        if machine.wants(*link) {
            if let Some(byte) = course.next_byte(given, *link) {
                return Some((*link, byte));
            }
        }
    }
    None
}

/// A run of a machine that is loaded.
fn drive(machine: &mut Checked, terms: Terms, course: &mut Course) -> Result<(), Stop> {
    for _ in 0..u64::MAX {
        go_on(machine, terms, course)?;
        let Some((link, byte)) = awaited(machine, terms.given, course) else {
            break;
        };
        course.count(link);
        machine.apply(Event::Arrive { link, byte })?;
    }
    Ok(())
}

/// A run of a machine that is loaded, and what came of it.
fn put_run(machine: &mut Checked, terms: Terms, course: &mut Course, out: &mut Answer) {
    match drive(machine, terms, course) {
        Ok(()) => course.put(machine, terms.given, out),
        Err(Stop::Fault(fault)) => out.fault("F", fault.number, u64::from(fault.offset)),
        Err(Stop::Memory) => out.fail(),
    }
}

/// What comes of a module that is run so.
fn run(alloc: Global, module: &Module, terms: Terms, out: &mut Answer) {
    let mut course = Course::new(alloc);
    match Checked::load(alloc, module) {
        Ok(mut machine) => put_run(&mut machine, terms, &mut course, out),
        Err(_) => out.fail(),
    }
}

/// Runs a module under each schedule, up to the first where something else comes of it than is expected.
pub(crate) fn judge_runs(
    alloc: Global,
    module: &Module,
    given: &Given,
    expected: &str,
    out: &mut Answer,
) -> Outcome {
    for schedule in &SCHEDULES {
        let terms = Terms {
            schedule: *schedule,
            given,
        };
        out.clear();
        run(alloc, module, terms, out);
        if out.as_str() != expected {
            out.put(", ");
            out.put(schedule.name());
            return Outcome::Differs;
        }
    }
    Outcome::Held
}
