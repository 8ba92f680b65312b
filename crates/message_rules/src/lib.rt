//! The rules of the instructions by which a process takes and gives messages.
#![tactic(auto)]

mod channel;
mod laws;
mod messages;

pub use laws::message_rules_fit_steps;
pub use messages::advance_message;
