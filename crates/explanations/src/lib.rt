//! The explanation of the verdict on a module.
#![tactic(auto)]

mod explaining;
mod laws;

pub use explaining::{Explained, explanation};
pub use laws::explanations_tell_the_verdict;
