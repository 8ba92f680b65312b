//! Modules of pieces of code that are certified.
#![tactic(auto)]

mod certifying;

pub use certifying::certified_module_of;
