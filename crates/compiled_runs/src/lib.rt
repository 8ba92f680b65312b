//! What is compiled and then run does what its source means.
#![tactic(auto)]

mod laws;

pub use laws::compiled_programs_do_what_they_mean;
