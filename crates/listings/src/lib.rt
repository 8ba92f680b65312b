//! The listing of a module's code: a line for each instruction.
#![tactic(auto)]

mod lines;
mod names;

pub use lines::{Entry, entry_of, listing, push_line};
pub use names::{function_name, operation_name};
