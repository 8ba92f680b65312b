//! That the pieces of programs make valid modules: laws on what pieces say, and on the modules that say them.
#![tactic(auto)]

mod laws;

pub use laws::{
    drafts_are_valid, drafts_are_whole, modules_are_valid, numbers_are_kept,
    programs_are_not_refused, programs_are_valid, programs_are_well_formed, rows_say_words,
};
