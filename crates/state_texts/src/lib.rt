//! What is known at a place of the code, in words.
#![tactic(auto)]

mod frames;
mod registers;
mod settings;

pub use frames::{WordText, push_frame};
pub use registers::{KnownText, push_state};
pub use settings::{ModeText, Setting};
