//! What is known where the body of a loop begins.
#![tactic(auto)]

mod loops;

pub use loops::begin_loop;
