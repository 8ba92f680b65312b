//! What became of a run.

/// What became of a run over given events.
#[derive(Drop)]
pub struct Replay {
    /// Whether some process has stopped where the module says that it ends.
    pub finished: bool,
    /// How many instruction bytes were executed.
    pub executed: u64,
    /// What was emitted on each link, by its number: its messages, one after the other.
    pub out: [Vec<u8>; 4],
}
