//! The compiler: from an occam source to a certified module.
#![tactic(auto)]

mod code_limits;
mod exceeding;
mod generating;
mod lining;
mod links;
mod source;

pub use exceeding::exceeded;
pub use generating::generate;
pub use lining::{code_lines, ends_in};
pub use links::link_lengths;
pub use source::{CompileFault, compile};
