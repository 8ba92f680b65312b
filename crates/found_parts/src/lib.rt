//! Which part of a state or of a module is the reason for which an instruction breaks a rule, and what is written of it.
#![tactic(auto)]

mod asked;
mod faults;
mod gifts;
mod guards;
mod laws;
mod messages;
mod names;
mod openings;
mod sharing;
mod starts;
mod successors;
mod turns;

pub use faults::{StartFault, Wanted};
pub use guards::{GuardRegisters, NextGuard, next_guard};
pub use laws::{named_conditions_are_unmet, named_parts_are_shared};
pub use messages::{KnownWord, constant_of, unknown_word};
pub use sharing::{Common, Shared, shared_in};
pub use starts::{Start, start_fault};
pub use turns::{Turn, turn_of};
