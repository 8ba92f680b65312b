//! What the code of processes makes a process do.
#![tactic(auto)]

mod laws;

pub use laws::{parts_lie_apart, pieces_lie_apart, processes_behave, reached_lines_behave};
