//! What the code of lines does on plain words, at any workspace of the frame.
#![tactic(auto)]

mod laws;

pub use laws::{
    addresses_are_used, chains_are_pushed, comparisons_are_pushed, expressions_are_pushed,
    frame_words_stay, homes_do_not_overlap, instructions_follow, leaves_and_elements_are_pushed,
    names_are_carried, new_names_are_carried, operands_are_pushed, operators_are_computed,
    parts_of_code_stand, prefixes_are_pushed, scopes_are_carried, stores_are_carried,
    whole_chains_are_pushed, words_are_pushed, words_are_zeroed,
};
