//! Which lines of a source code comes from, and in words.
#![tactic(auto)]

mod entry;
mod texts;

pub use entry::{LineEntry, count_upto};
pub use texts::push_lines;
