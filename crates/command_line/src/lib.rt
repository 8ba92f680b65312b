//! The command line of `tpm`: its words, and what they ask for.
#![tactic(auto)]

mod building;
mod fitting;
mod lines;
mod links;
mod reading;
mod words;

pub use fitting::{is_stream, number_in};
pub use lines::{Line, LineFault, Misfit, Question, Usage};
pub use links::{LinkNames, LinkPaths, OnLinks, input_names, output_names};
pub use reading::line;
pub use words::{WordFault, texts};
