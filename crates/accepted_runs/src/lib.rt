//! Runs of accepted modules on the plain machine.
#![tactic(auto)]

mod replaying;
mod report;
mod running;

pub use link_runs::{Machine, Progress, Reaction};
pub use replaying::replay;
pub use report::Replay;
pub use running::Run;
