//! What is counted of a procedure, each instance with all that is in its procedure.

use crate::excess::{Excess, Limit};
use crate::nesting::Around;
use crate::parts::Depth;

/// The least number of steps that a turn of a loop takes: the instruction that ends it takes four.
const STEPS_OF_TURN: u64 = 4;

/// The work of an actual, and of each name from before a procedure at an instance of it.
const PASSING_STEPS: u64 = 400;

const LENDING_STEPS: u64 = 8;

/// As how many processes an instance counts beside those in its procedure.
const INSTANCE_DEPTH: u64 = 2;

/// What adds up from line to line.
#[derive(Clone, Copy)]
pub(crate) struct Amounts {
    pub(crate) rows: u64,
    /// The entries of these rows.
    pub(crate) entries: u64,
    pub(crate) pars: u64,
    /// The bytes of the code.
    pub(crate) bytes: u64,
    /// The sizes of the lines.
    pub(crate) size: u64,
    /// The steps of work beside writing.
    pub(crate) work: u64,
    /// How much of a sequential program is read.
    pub(crate) reading: u64,
}

impl Amounts {
    pub(crate) const NOTHING: Amounts = Amounts {
        rows: 0,
        entries: 0,
        pars: 0,
        bytes: 0,
        size: 0,
        work: 0,
        reading: 0,
    };

    /// So much work.
    pub(crate) fn work(work: u64) -> Amounts {
        Amounts {
            work,
            ..Amounts::NOTHING
        }
    }

    /// So much of a sequential program is read.
    pub(crate) fn reading(reading: u64) -> Amounts {
        Amounts {
            reading,
            ..Amounts::NOTHING
        }
    }

    /// So many rows, each with as many entries, which are looked at.
    pub(crate) fn rows(rows: u64, entries: u64) -> Amounts {
        let all = rows.saturating_mul(entries);
        Amounts {
            rows,
            entries: all,
            work: all,
            ..Amounts::NOTHING
        }
    }

    /// Both.
    pub(crate) fn plus(self, more: Amounts) -> Amounts {
        Amounts {
            rows: self.rows.saturating_add(more.rows),
            entries: self.entries.saturating_add(more.entries),
            pars: self.pars.saturating_add(more.pars),
            bytes: self.bytes.saturating_add(more.bytes),
            size: self.size.saturating_add(more.size),
            work: self.work.saturating_add(more.work),
            reading: self.reading.saturating_add(more.reading),
        }
    }

    /// So often.
    pub(crate) fn times(self, times: u64) -> Amounts {
        Amounts {
            rows: self.rows.saturating_mul(times),
            entries: self.entries.saturating_mul(times),
            pars: self.pars.saturating_mul(times),
            bytes: self.bytes.saturating_mul(times),
            size: self.size.saturating_mul(times),
            work: self.work.saturating_mul(times),
            reading: self.reading.saturating_mul(times),
        }
    }
}

/// The most that there is at one place.
#[derive(Clone, Copy)]
pub(crate) struct Peaks {
    /// The words of variables.
    pub(crate) words: u64,
    /// The turns of a loop, with those around it.
    pub(crate) turns: u64,
    /// The processes in one another.
    pub(crate) processes: u64,
    /// The `PAR`s in one another.
    pub(crate) nesting: u64,
}

impl Peaks {
    pub(crate) const NOTHING: Peaks = Peaks {
        words: 0,
        turns: 0,
        processes: 0,
        nesting: 0,
    };

    /// The greater of each.
    fn or(self, other: Peaks) -> Peaks {
        Peaks {
            words: self.words.max(other.words),
            turns: self.turns.max(other.turns),
            processes: self.processes.max(other.processes),
            nesting: self.nesting.max(other.nesting),
        }
    }
}

/// What was counted of a procedure, or of the constants of a program.
#[derive(Clone, Copy)]
pub(crate) struct Counted {
    pub(crate) amounts: Amounts,
    pub(crate) peaks: Peaks,
    /// How many names are known before it.
    pub(crate) names: u64,
    /// The first limit that is exceeded.
    pub(crate) excess: Option<Excess>,
}

/// The excess on the earlier line.
pub(crate) fn earlier(first: Option<Excess>, second: Option<Excess>) -> Option<Excess> {
    match (first, second) {
        (Some(one), Some(other)) if one.line <= other.line => first,
        (_, None) => first,
        _ => second,
    }
}

impl Counted {
    pub(crate) const NOTHING: Counted = Counted {
        amounts: Amounts::NOTHING,
        peaks: Peaks::NOTHING,
        names: 0,
        excess: None,
    };

    /// Nothing of a procedure, before which so many names are known, but that so much of the constants is read.
    pub(crate) fn of_procedure(names: u64, reading: u64) -> Counted {
        Counted {
            amounts: Amounts::reading(reading),
            names,
            ..Counted::NOTHING
        }
    }

    /// What comes with an instance of this procedure, with so many actuals, where rows say something of so many variables:
    /// what is in the procedure, whose rows say that too, and a row of its own.
    pub(crate) fn amounts_of_instance(&self, actuals: u64, variables: u64) -> Amounts {
        let passing = actuals.saturating_mul(PASSING_STEPS);
        let lending = self.names.saturating_mul(LENDING_STEPS);
        let rows = self.amounts.rows.saturating_add(1);
        self.amounts.plus(Amounts {
            rows: 1,
            entries: rows.saturating_mul(variables),
            ..Amounts::work(passing.saturating_add(lending))
        })
    }

    /// The most that there is at one place of such an instance, in a process that is so deep.
    pub(crate) fn peaks_of_instance(&self, here: Around, depth: Depth) -> Peaks {
        let deeper = INSTANCE_DEPTH.saturating_add(self.peaks.processes);
        Peaks {
            words: here.words.saturating_add(self.peaks.words),
            turns: here.turns.saturating_mul(self.peaks.turns),
            processes: depth.processes.saturating_add(deeper),
            nesting: depth.pars.saturating_add(self.peaks.nesting),
        }
    }

    /// A limit that is exceeded, if one is: the first one counts.
    pub(crate) fn note(&mut self, excess: Option<Excess>) {
        self.excess = earlier(self.excess, excess);
    }

    /// This comes with a line.
    pub(crate) fn add(&mut self, line: u32, amounts: Amounts, peaks: Peaks) {
        self.amounts = self.amounts.plus(amounts);
        self.peaks = self.peaks.or(peaks);
        self.note(excess_in_all(line, self.amounts));
        self.note(excess_at_place(line, peaks));
    }
}

/// The first limit of sums that is exceeded on a line.
fn excess_in_all(line: u32, all: Amounts) -> Option<Excess> {
    Excess::of(line, Limit::Pars, all.pars)
        .or(Excess::of(line, Limit::Rows, all.rows))
        .or(Excess::of(line, Limit::Entries, all.entries))
        .or(Excess::of(line, Limit::Bytes, all.bytes))
        .or(Excess::of(line, Limit::Size, all.size))
        .or(Excess::of(line, Limit::Work, all.work))
        .or(Excess::of(line, Limit::Reading, all.reading))
}

/// The first limit of what there is at one place that is exceeded on a line.
fn excess_at_place(line: u32, peaks: Peaks) -> Option<Excess> {
    let steps = peaks.turns.saturating_mul(STEPS_OF_TURN);
    Excess::of(line, Limit::Words, peaks.words)
        .or(Excess::of(line, Limit::Steps, steps))
        .or(Excess::of(line, Limit::Processes, peaks.processes))
        .or(Excess::of(line, Limit::Nesting, peaks.nesting))
}
