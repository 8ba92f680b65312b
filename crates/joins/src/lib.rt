//! PARs: branches start, each with a share of what the starter holds, and the process goes on once all are joined.
#![tactic(auto)]

mod ending;
mod entering;
mod faults;
mod found;
mod gifts;
mod given;
mod laws;
mod open;
mod opening;
mod plan;
mod share;
mod starting;
mod testing;

pub use ending::join;
pub use laws::{joins_read_no_counters, starts_read_no_counters};
use machine_state::TaggedStore;
use process_queue::ListQueue;
pub use starting::start;
pub use traffic::Stop;
use traffic::Traffic;

/// The processes, and what each of them holds.
pub(crate) type Processes = Traffic<TaggedStore, ListQueue>;
