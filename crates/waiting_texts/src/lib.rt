//! What each process of a run waits for, in words.
#![tactic(auto)]

mod deadlocks;
mod faults;
mod laws;
mod lines;
mod places;
mod setting;
mod waits;

pub use deadlocks::is_deadlock;
pub use faults::FaultText;
pub use laws::nobody_is_ready_at_rest;
pub use lines::{entry_at, waiting_lines};
pub use setting::Setting;
