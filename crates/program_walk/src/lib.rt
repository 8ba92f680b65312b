//! What a walk over a program shows: on each line what is known there, and the first limit that the program is above.
#![tactic(auto)]

mod counting;
mod excess;
mod finding;
mod holding;
mod knowing;
mod listing;
mod nesting;
mod parts;
mod repeating;
mod texts;
mod walk;

pub use excess::{Excess, Limit};
pub use finding::limit_excess;
pub use listing::known_lines;
pub use texts::limit_text;
