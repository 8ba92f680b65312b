//! The processes that wait for their turn, seen as a list.
#![tactic(auto)]

mod list_queue;
mod ready_queue;

pub use list_queue::ListQueue;
pub use ready_queue::ReadyQueue;
