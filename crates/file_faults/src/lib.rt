//! Why a file is no module, in words: the field at fault, what it has, and what is wanted of it.
#![tactic(auto)]

mod fields;
mod names;
mod reasons;
mod walking;
mod walks;

pub use reasons::push_file_fault;
