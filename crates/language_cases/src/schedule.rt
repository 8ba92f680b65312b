//! The orders in which the processes of a program run.

use machine_state::Event;

/// An order of processes.
#[derive(Clone, Copy)]
pub(crate) enum Schedule {
    /// A process runs until it waits, and the first that is ready is next.
    FirstInFirstOut,
    /// A process gives way at each jump and each turn of a loop.
    Slices,
    /// The last process that is ready is next.
    PicksLast,
}

/// Those that each run is tried under.
pub(crate) const SCHEDULES: [Schedule; 3] = [
    Schedule::FirstInFirstOut,
    Schedule::Slices,
    Schedule::PicksLast,
];

/// The pick of the last of any list of at most 46 processes: one less than a multiple of each such length.
const LAST: u64 = 9_419_588_158_802_421_599;

impl Schedule {
    /// A byte of the running process.
    pub(crate) fn step(self) -> Event {
        match self {
            Schedule::FirstInFirstOut => Event::Step {
                slice: false,
                pick: 0,
            },
            Schedule::Slices => Event::Step {
                slice: true,
                pick: 0,
            },
            Schedule::PicksLast => Event::Step {
                slice: false,
                pick: LAST,
            },
        }
    }

    /// What is said of a run that differs.
    pub(crate) fn name(self) -> &'static str {
        match self {
            Schedule::FirstInFirstOut => "first in, first out",
            Schedule::Slices => "with a slice at each jump",
            Schedule::PicksLast => "with the last picked",
        }
    }
}
