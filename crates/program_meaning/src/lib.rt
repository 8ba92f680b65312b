//! What sequential programs mean. There is no code here: the definitions are those of `specs/`, and each law is the
//! contract of a function that does nothing.
#![tactic(auto)]

mod laws;

pub use laws::{
    declarations_hold, doing_is_running, leaves_are_true, loops_go_on, messages_hold_numbers,
    moves_stay_within, numbers_are_stored, outcomes_go_well, small_programs_mean, types_stay,
    values_are_typed,
};
