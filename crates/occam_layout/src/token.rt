//! Lines and their tokens.

ghost use Rattle.std.specs.Prelude.{◌≡◌, true};
ghost use Rattle.occam_layout.specs.Kind.{kind_of};
ghost use Rattle.occam_layout.specs.Words.{is_in_words};

use crate::mark::Mark;
use crate::text::Text;

/// A line of a source that has tokens.
#[derive(Drop)]
pub struct Line<'a> {
    /// The line's number, counted from 1 over all lines of the source.
    pub number: u32,
    /// How deep the line is indented, in levels of two spaces.
    pub level: u32,
    /// The tokens from left to right, one at least.
    pub tokens: Vec<Token<'a>>,
}

/// A token, and its span in the source.
#[derive(Clone, Copy)]
pub struct Token<'a> {
    pub kind: TokenKind<'a>,
    /// The offset of the token's first byte in the source.
    pub start: u32,
    /// The offset after the token's last byte.
    pub end: u32,
    /// An integer literal is a word, a character is a byte, and so is each byte of a string.
    pub ghost words: { is_in_words (kind_of kind) ≡ true },
}

/// What a token is: a name, a literal, or a mark.
#[derive(Clone, Copy)]
pub enum TokenKind<'a> {
    /// A letter, then letters, digits and dots, and no keyword: the bytes of the source.
    Name(&'a [u8]),
    /// An integer literal: the value of the word that it denotes.
    Integer(i32),
    /// A character literal: its byte.
    Character(u8),
    /// A string: its bytes.
    Text(Text<'a>),
    /// A keyword or a sign.
    Mark(Mark),
}
