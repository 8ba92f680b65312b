//! What is written of a source that is refused before it has code, and of its lines.
#![tactic(auto)]

mod texts;

pub use texts::{listed, parse_reason_text, usage_reason_text};
