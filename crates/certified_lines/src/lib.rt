//! What the rules of certificates leave of what is known, where code is straight.
#![tactic(auto)]

mod laws;

pub use laws::{
    addresses_are_told, chains_are_told, comparisons_tell_of_words, conditions_are_told,
    elements_are_told, expressions_are_told, jumps_are_told, leaves_are_told, moved_bytes_are_told,
    moved_words_are_told, narrowed_scopes_are_held, operands_are_told, operators_are_told,
    results_lie_in_ranges, rules_fall_together, straight_pieces_walk, waiting_is_told,
    words_are_told, words_stay_known,
};
