//! What is written of a program that breaks a usage rule: where, why, the line, and what is known of its names.
#![tactic(auto)]

/// A part of a sentence: these words, or another [`Phrase`](phrases::Phrase).
macro_rules! phrase {
    ($words:literal) => {
        Phrase::Words($words)
    };
    ($phrase:expr) => {
        $phrase
    };
}

/// Appends the parts of a sentence, each a literal, a name, or in parentheses, by
/// [`push_phrases`](phrases::push_phrases).
macro_rules! push_phrases {
    ($text:expr, $($part:tt)*) => {
        push_phrases($text, &[$(phrase!($part)),*])
    };
}

mod hints;
mod known;
mod last_item;
mod passing;
mod phrases;
mod ranges;
mod sentence;
mod shapes;
mod sharing;
mod sizes;
mod text;
mod types;
mod view;
mod words;

pub use text::usage_text;
