//! What hosts read of a machine.

ghost use Rattle.std.specs.Prelude.{◌≡◌, ℕ, List, Some};
ghost use Rattle.link_runs.specs.Driving.{reported};
ghost use Rattle.machine_state.specs.Moves.{link_index};
ghost use Rattle.host_library.specs.Machines.{effect_in, stop_in};

use kept_runs::{RunReport, RunStop};
use link_runs::Reaction;

/// A byte of the running process was executed.
pub const RAN: u8 = 0;
/// No process is running.
pub const IDLE: u8 = 1;
/// A message went out.
pub const EMITTED: u8 = 2;
/// A process took the byte.
pub const TAKEN: u8 = 3;
/// The byte is kept.
pub const KEPT: u8 = 4;
/// A byte is kept there already, and nothing changed.
pub const BUSY: u8 = 5;
/// The process that waited for it goes on.
pub const ACKNOWLEDGED: u8 = 6;
/// No process waited for it, and nothing changed.
pub const IGNORED: u8 = 7;

/// What an event did, as a host reads it.
#[repr(C)]
#[derive(Clone, Copy)]
pub struct HostEffect {
    /// `RAN` to `IGNORED`.
    pub kind: u8,
    /// Of a message: the number of the link that it went out on.
    pub link: u8,
}

/// How far a machine went by itself, as a host reads it.
#[repr(C)]
#[derive(Clone, Copy)]
pub struct HostProgress {
    /// How many bytes were executed.
    pub executed: u64,
    /// `RAN` if that are at least as many as were asked for, else `IDLE` or `EMITTED`.
    pub kind: u8,
    /// Of a message: the number of the link that it went out on.
    pub link: u8,
}

/// What can be asked of a machine, as a host reads it.
#[repr(C)]
#[derive(Clone, Copy)]
pub struct HostState {
    /// How many instruction bytes were executed.
    pub executed: u64,
    /// How many bytes the message has that the last event sent, 0 if it sent none.
    pub message: usize,
    /// 1 if some process runs, else 0.
    pub is_running: u8,
    /// 1 if some process has stopped where the module says that it ends, else 0.
    pub is_finished: u8,
    /// Of each link, by its number: 1 if some process waits for a byte there or has enabled it, and none is kept, else
    /// 0.
    pub wants: [u8; 4],
}

/// What is reported of an event that did this.
pub fn effect_of(reaction: Reaction) -> HostEffect
    ensures { (last : List ℕ) → effect_in result last ≡ Some (reported reaction last) }
{
    let kind = match reaction {
        Reaction::Ran => RAN,
        Reaction::Idle => IDLE,
        Reaction::Emitted { link } => {
            return HostEffect {
                kind: EMITTED,
                link: link.index() as u8,
            };
        }
        Reaction::Taken => TAKEN,
        Reaction::Kept => KEPT,
        Reaction::Busy => BUSY,
        Reaction::Acknowledged => ACKNOWLEDGED,
        Reaction::Ignored => IGNORED,
    };
    HostEffect { kind, link: 0 }
}

/// What is reported of a run.
pub fn progress_of(report: RunReport) -> HostProgress
    ensures executed { result.executed ≡ report.executed }
    ensures stop { stop_in result ≡ Some report.stop }
{
    let (kind, link) = match report.stop {
        RunStop::AtLimit => (RAN, 0),
        RunStop::Idle => (IDLE, 0),
        RunStop::Emitted { link } => (EMITTED, link.index() as u8),
    };
    HostProgress {
        executed: report.executed,
        kind,
        link,
    }
}
