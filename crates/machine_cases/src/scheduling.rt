//! Whether the plain machine does what the reference machine does, whoever runs next.

use crate::pairing::one_event;
use accepted_runs::Run;
use conformance::Outcome;
use machine::Checked;
use machine_state::Event;
use module_cases::LINKS;

/// How many bytes are executed at most by a schedule.
const STEPS: u64 = 200;

/// One less than a multiple of each number up to 40, so the last place of a list that is no longer.
const LAST: u64 = 5_342_931_457_063_199;

/// Who runs next, where that can be chosen, and whether a process gives way at `j` and `lend`.
#[derive(Clone, Copy)]
pub(crate) enum Schedule {
    /// First in, first out, and no process gives way.
    InOrder,
    /// First in, first out, and each process gives way.
    Slices,
    /// Who became ready last.
    Last,
    /// Who is at another place of the list each time.
    Changing,
}

pub(crate) const SCHEDULES: [Schedule; 4] = [
    Schedule::InOrder,
    Schedule::Slices,
    Schedule::Last,
    Schedule::Changing,
];

impl Schedule {
    /// The Step of this number.
    fn step(self, number: u64) -> Event {
        let (slice, pick) = match self {
            Schedule::InOrder => (false, 0),
            Schedule::Slices => (true, 0),
            Schedule::Last => (false, LAST),
            Schedule::Changing => (number % 3 == 0, number),
        };
        Event::Step { slice, pick }
    }
}

/// Lets the Step of this number happen to both machines, and then a byte arrive and a message be acknowledged on a link.
fn one_turn(checked: &mut Checked, run: &mut Run, schedule: Schedule, number: u64) -> Outcome {
    let link = LINKS[(number % 4) as usize];
    let events = [
        schedule.step(number),
        Event::Arrive {
            link,
            byte: (number % 256) as u8,
        },
        Event::Acknowledge { link },
    ];
    for event in &events {
        let outcome = one_event(checked, run, *event);
        if outcome != Outcome::Held {
            return outcome;
        }
    }
    Outcome::Held
}

/// Lets both machines run by a schedule, up to the first event that does not do the same.
pub(crate) fn scheduled_events(
    checked: &mut Checked,
    run: &mut Run,
    schedule: Schedule,
) -> Outcome {
    for number in 0..STEPS {
        let outcome = one_turn(checked, run, schedule, number);
        if outcome != Outcome::Held {
            return outcome;
        }
    }
    Outcome::Held
}
