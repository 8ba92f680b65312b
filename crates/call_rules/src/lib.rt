//! The rules of calls and returns: what a call wants of what is passed, and what is known after it.
#![tactic(auto)]

mod calling;
mod calls;
mod given_ends;
mod laws;
mod lent;
mod passed;

pub use calls::{call, return_to_caller};
pub use laws::call_rules_fit_steps;
