//! What the rules of certificates leave of what is known, where actions and declarations are.
#![tactic(auto)]

mod laws;

pub use laws::{
    actions_are_told, assignments_are_told, checked_actions_are_told, declarations_are_told,
    inputs_are_told, messages_are_told, outputs_are_told, roots_are_undisturbed,
    roots_have_their_rights, scopes_are_kept, words_are_set,
};
