//! The rule of each instruction: what it wants of the state before it, and what it leaves.
#![tactic(auto)]

mod advancing;
mod following;
mod laws;
mod way;

pub use advancing::{advance, is_instruction, leave, reserve_guards, start};
pub use following::{Successor, Successors, transfer};
pub use laws::rules_fit_steps;
pub use par_rules::Started;
pub use rulings::Continuation;
pub use way::{Way, way_of};
