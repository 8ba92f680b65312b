//! Ends of channels as words.

use crate::words::Words;
use module_format::{Direction, EndKind, EndRow};

/// `word WORD`, `parameter NUMBER ELEMENT` or `link LINK`.
fn end_kind(words: &mut Words) -> EndKind {
    match words.word() {
        "word" => EndKind::FrameWord(words.integer()),
        "parameter" => EndKind::Parameter {
            number: words.integer(),
            element: words.number(),
        },
        "link" => EndKind::Link(u8::try_from(words.number()).unwrap_or(u8::MAX)),
        _ => {
            words.fail();
            EndKind::Link(u8::MAX)
        }
    }
}

/// `in` or `out`.
fn direction(words: &mut Words) -> Direction {
    match words.word() {
        "in" => Direction::In,
        "out" => Direction::Out,
        _ => {
            words.fail();
            Direction::Out
        }
    }
}

/// An end, and then its direction.
pub fn end(words: &mut Words) -> EndRow {
    EndRow {
        kind: end_kind(words),
        direction: direction(words),
    }
}
