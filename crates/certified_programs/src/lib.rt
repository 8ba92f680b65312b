//! The module of a sequential program is certified.
#![tactic(auto)]

mod laws;

pub use laws::{main_is_settled, programs_are_certified, roots_are_founded, tables_have_values};
