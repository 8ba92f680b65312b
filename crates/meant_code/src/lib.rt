//! What the code of programs is: which labels it places, and where these are.
#![tactic(auto)]

mod laws;

pub use laws::{
    labels_are_placed, numbers_stay, pieces_lead, programs_have_parts, words_are_taken,
};
