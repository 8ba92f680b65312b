//! Runs of accepted modules with readers and writers on their links, first in, first out.
#![tactic(auto)]

mod boxes;
mod device;
mod driving;
mod laws;
mod providing;
mod reading;
mod report;
mod running;
mod sending;
mod supplying;
mod tally;
mod writing;

pub use device::Failed;
pub use driving::drive;
pub use laws::runs_of_bytes_can_happen;
pub use reading::{LinkReader, Reading};
pub use report::{Halt, Outcome, Report, RunError};
pub use running::run;
pub use sending::write_whole;
pub use tally::Tally;
pub use writing::{LinkWriter, Writing};
