//! That the code of processes breaks no rule of certificates.
#![tactic(auto)]

mod laws;

pub use laws::{processes_pass, rows_are_of_scopes};
