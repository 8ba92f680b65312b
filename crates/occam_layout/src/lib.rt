//! From source bytes to lines of tokens.
#![tactic(auto)]

mod fault;
mod laws;
mod layout;
mod mark;
mod scan;
mod text;
mod token;
mod words;

pub use fault::{CHARACTER, LITERAL, LayoutFault, MEMORY, ODD_INDENTATION, TOO_DEEP, TOO_LARGE};
pub use laws::nothing_is_dropped;
pub use layout::{MAX_BYTES, MAX_LINES, lines};
pub use mark::Mark;
pub use text::{Text, TextBytes};
pub use token::{Line, Token, TokenKind};
