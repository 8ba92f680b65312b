//! Whether the plain machine does what the reference machine does.

use accepted_runs::Run;
use conformance::Outcome;
use machine::{Checked, Stop};
use machine_state::{Effect, Event};
use module_cases::{LINKS, Words, event, letter};

fn is_same(first: Effect, second: Effect) -> bool {
    match (first, second) {
        (
            Effect::Emitted { link, bytes },
            Effect::Emitted {
                link: other,
                bytes: others,
            },
        ) => link == other && bytes == others,
        (first, second) => letter(first) == letter(second),
    }
}

/// Whether the four questions have the same answers.
fn tell_the_same(checked: &Checked, run: &Run) -> bool {
    for link in LINKS {
        if checked.wants(link) != run.wants(link) {
            return false;
        }
    }
    checked.executed() == run.executed()
        && checked.finished() == run.finished()
        && checked.running() == run.running()
}

/// Lets an event happen to both machines.
pub(crate) fn one_event(checked: &mut Checked, run: &mut Run, event: Event) -> Outcome {
    let is_same = match checked.apply(event) {
        Ok(effect) => is_same(effect, run.apply(event)),
        Err(Stop::Fault(_)) => false,
        Err(Stop::Memory) => return Outcome::OutOfMemory,
    };
    if is_same && tell_the_same(checked, run) {
        Outcome::Held
    } else {
        Outcome::Differs
    }
}

/// Lets the events of a text happen to both, up to the first that does not do the same.
pub(crate) fn written_events(checked: &mut Checked, run: &mut Run, text: &str) -> Outcome {
    let mut words = Words::of(text);
    for _ in 0..words.count() {
        let Some(event) = event(words.word()) else {
            return Outcome::Unreadable;
        };
        let outcome = one_event(checked, run, event);
        if outcome != Outcome::Held {
            return outcome;
        }
    }
    Outcome::Held
}

/// Lets these events happen to both, up to the first that does not do the same.
pub(crate) fn listed_events(checked: &mut Checked, run: &mut Run, events: &[Event]) -> Outcome {
    for event in events {
        let outcome = one_event(checked, run, *event);
        if outcome != Outcome::Held {
            return outcome;
        }
    }
    Outcome::Held
}
