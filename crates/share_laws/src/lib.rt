//! What a started branch is given of what its starter has, what the starter has left, and how changes that branches
//! make climb to their openers.
#![tactic(auto)]

mod laws;

pub use laws::{
    bases_are_frames, branches_are_apart, branches_are_lent, branches_begin,
    branches_hold_their_shares, changes_climb, ends_lie_outside, openers_hold_the_rest,
    shares_are_left, shares_are_there, shares_are_words, starters_go_on, starters_hold_the_rest,
    starts_pass_their_tests, starts_take_their_words,
};
