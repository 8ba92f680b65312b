//! What is known of words, and the rows of a module, in words.
#![tactic(auto)]

mod facts;
mod items;
mod rows;

pub use facts::{FactText, LoopText, RangeText, range};
pub use items::ChannelText;
pub use rows::{ContextRow, ContextText, context_text, is_unknown, push_context_row, push_label};
