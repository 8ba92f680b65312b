//! Why a source has no lines of tokens, or its lines are no program, and what is written of it: where, why, the line, and a
//! hint. Reasons are found by a second call that goes again to the fault that was reported.
#![tactic(auto)]

mod block;
mod classes;
mod context;
mod expressions;
mod forms;
mod hints;
mod layout;
mod layout_texts;
mod lines;
mod parse;
mod parse_texts;
mod quotes;
mod stuck;
mod tokens;

pub use block::{
    Span, closing_quote, meant, push_block, push_bytes, push_hint, push_number, push_place,
    shown_byte,
};
pub use layout_texts::layout_text;
pub use lines::{Above, SourceLine, find_line, first_line};
pub use parse_texts::{line_of, line_span, parse_text};
