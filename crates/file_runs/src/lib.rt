//! Runs with files on the links: of an accepted module, and of any on the machine that checks each rule.
#![tactic(auto)]

mod debugging;
mod reports;
mod running;
mod tracing;

pub use debugging::{Debugged, Debugging, Ending, debug};
pub use reports::run_report;
pub use running::run_with_files;
pub use tracing::{LinedTracer, Tracer};
