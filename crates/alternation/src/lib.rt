//! Alternations: a process enables what it would receive from, waits until some of it is ready, and disables it all
//! again, by which the first that is ready is selected.
#![tactic(auto)]

mod disabling;
mod enabling;
mod laws;
mod moves;
mod source;

pub use disabling::{disable_channel, disable_skip, end, wait};
pub use enabling::{begin, enable_channel, enable_skip};
pub use laws::{disabling_reads_no_counters, enabling_reads_no_counters};
