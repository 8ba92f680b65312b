//! How much there is to do to write the code of a program: sums over its tree, so that what bounds the time of writing
//! can be said of the tree alone.
#![tactic(auto)]

mod laws;
mod lines;
mod programs;
mod reading;
mod sums;

pub use laws::sequential_is_tested;
pub use lines::{
    reading_of_action, reading_of_condition, reading_of_constant, reading_of_declaration,
    reading_of_guard, reading_of_replicator,
};
pub use programs::{is_too_much_to_write, names_in};
pub use reading::reading_of_expression;
pub use sums::{GREATEST_WORK, TurnWork, is_sequential, is_too_much_work, work_of_turn};
