//! Runs of accepted modules that borrow nothing, and the same as a pointer that C holds.
#![tactic(auto)]

mod host_machine;
mod kept_run;
mod loose;
mod moving;
mod run_handle;
mod running_on;

pub use host_machine::HostMachine;
pub use kept_run::KeptRun;
pub use running_on::{RunReport, RunStop};
