//! How far a run went by itself.

use machine_state::Link;

/// Why a run stopped.
#[derive(Clone, Copy)]
pub enum RunStop {
    /// At least as many bytes were executed as were asked for, the last of which completes a loop's end, a call or what
    /// asks something of others, if they are more.
    AtLimit,
    /// No process is running.
    Idle,
    /// A message went out on this link.
    Emitted { link: Link },
}

/// How far a run went.
#[derive(Clone, Copy)]
pub struct RunReport {
    /// How many bytes were executed.
    pub executed: u64,
    /// Why it stopped.
    pub stop: RunStop,
}
