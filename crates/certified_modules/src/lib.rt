//! Where the pieces of one process pass, the module that says them is certified.
#![tactic(auto)]

mod laws;

pub use laws::{
    passed_modules_are_certified, pieces_pass, rows_are_implied, rows_tell, shapes_pass,
    small_pieces_pass, ways_are_certified,
};
