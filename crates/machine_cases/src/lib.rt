//! Cases of module files, asked of the layers of the machine.
//!
//! They ask how files are read, as they are or altered in many ways; what a module says, what the verdict on it is, and how
//! that is explained; what an instruction does, and what follows it by its rule; what machines return for events; and what
//! comes of runs with readers and writers on the links. The calls that are repeated are `read`, `write`, `verify`, `replay`,
//! `run`, and `apply`, `slice` and `pick`, which are events on one machine.
#![tactic(auto)]

mod accepted;
mod altered_modules;
mod altered_runs;
mod altered_verdicts;
mod asking;
mod calls;
mod course;
mod explaining;
mod failing;
mod following;
mod links;
mod lookups;
mod pairing;
mod reader;
mod repeated_events;
mod repeated_runs;
mod repeating;
mod reporting;
mod running;
mod scheduling;
mod setting;
mod stepping;
mod sums;
mod upgrading;
mod verdicts;
mod watching;
mod writer;

pub use repeating::Repeated;
pub use setting::Setting;
