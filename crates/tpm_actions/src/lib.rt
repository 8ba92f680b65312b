//! What `tpm` does: `act` over the words, the files and the streams that it is handed.
#![tactic(auto)]

mod acting;
mod compiling;
mod explaining;
mod laws;
mod programs;
mod refused;
mod report;
mod telling;
mod upgrading;

pub use acting::act;
pub use laws::beginnings_decide;
pub use report::{DONE, FAILED, MISUSED, REFUSED, STARVED};
