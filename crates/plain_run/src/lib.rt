//! The plain machine runs a module, and agrees with the worlds that the machine's definitions say.
#![tactic(auto)]

mod link_words;
mod machine;
mod program;

pub use machine::Machine;
pub use program::Program;
