//! The rules of the instructions that concern one process and its memory alone: of words, memory, jumps and loops.
#![tactic(auto)]

mod advancing;
mod jumps;
mod laws;
mod loops;
mod memory;
mod moves;
mod narrowing;
mod numbers;
mod shifting;
mod stores;
mod word_rules;

pub use advancing::advance_locally;
pub use laws::local_rules_fit_steps;
