//! What is known of words where scopes move, and which scopes lie within others.
#![tactic(auto)]

mod laws;

pub use laws::{
    processes_leave_scopes, scopes_are_held, scopes_are_settled, scopes_lie_within_others,
    words_are_in_turn,
};
