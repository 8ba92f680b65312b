//! What became of a run.

ghost use Rattle.std.specs.Prelude.{◌≡◌};
ghost use Rattle.link_runs.specs.FirstInFirstOut.{RunMoment};
ghost use Rattle.link_runner.specs.Counting.{tally_of, report_of};
ghost use Rattle.link_runner.specs.declared.report.RunError.TheVariants.{Memory};

use crate::tally::Tally;
use link_runs::Machine;
use machine_state::Link;
use std::alloc::AllocError;

/// How a run ended.
#[derive(Clone, Copy, Debug, PartialEq, Eq)]
pub enum Outcome {
    /// Some process has stopped where the module says that it ends.
    Ended,
    /// All processes wait, or have stopped elsewhere.
    Idle,
}

/// What became of a run. A count of bytes stays at `u64::MAX` once it is there.
#[derive(Clone, Copy, Debug, PartialEq, Eq)]
pub struct Report {
    pub outcome: Outcome,
    /// How many instruction bytes were executed.
    pub executed: u64,
    /// How many bytes were read from each link.
    pub read: [u64; 4],
    /// How many bytes were written on each link.
    pub written: [u64; 4],
}

/// Why a run ended too early.
#[derive(Clone, Copy, Debug, PartialEq, Eq)]
pub enum RunError {
    /// A read of this link failed.
    ReadFailed(Link),
    /// A write on this link failed, or took no byte.
    WriteFailed(Link),
    /// Memory ran out as the module was loaded: nothing was read, and nothing was written.
    Memory,
}

/// Why a machine that is driven went no further, where something was left to do.
#[derive(Clone, Copy, Debug, PartialEq, Eq)]
pub enum Halt<S> {
    /// A read of this link failed.
    ReadFailed(Link),
    /// A write on this link failed, or took no byte.
    WriteFailed(Link),
    /// The machine stopped of itself.
    Stopped(S),
}

impl Report {
    /// What is reported of a run that ends where the machine is, after these bytes on the links.
    pub fn at_end<M: Machine>(machine: &M, tally: &Tally) -> Self
        ensures { (s : RunMoment) → M.shows machine.now s.world → tally.now ≡ tally_of s → result ≡ report_of s }
    {
        let outcome = if machine.finished() {
            Outcome::Ended
        } else {
            Outcome::Idle
        };
        Report {
            outcome,
            executed: machine.executed(),
            read: tally.read(),
            written: tally.written(),
        }
    }
}

impl From<AllocError> for RunError {
    ghost from_gives = { λ _ error. error ≡ Memory };

    fn from(_error: AllocError) -> Self {
        RunError::Memory
    }
}
