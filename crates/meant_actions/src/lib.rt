//! What the code of actions makes a process do.
#![tactic(auto)]

mod laws;

pub use laws::{
    actions_behave, assignments_behave, checked_actions_are_ready, inputs_behave, nothing_is_done,
    outputs_behave, undisturbed_frames_carry,
};
