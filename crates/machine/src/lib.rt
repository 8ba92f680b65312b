//! The machine that runs any module, and reports the first rule that a process breaks.
#![tactic(auto)]

mod bounded;
mod checked;

pub use bounded::{Bounded, Cause, Observer};
pub use checked::{Checked, Stop};
