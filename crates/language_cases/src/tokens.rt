//! Lines and tokens as text.

use conformance::Answer;
use occam_layout::{Line, Text, Token, TokenKind};

/// A byte of a character or a string, as a source spells it.
pub(crate) fn write_character(out: &mut Answer, byte: u8) {
    match byte {
        b'*' | b'\'' | b'"' => {
            out.put("*");
            out.byte(byte);
        }
        b' '..=b'~' => out.byte(byte),
        _ => {
            out.put("*#");
            out.hexadecimal(byte);
        }
    }
}

/// The bytes of a string, each taken off what is left of it.
fn write_split(out: &mut Answer, text: Text) {
    let mut rest = text;
    for _ in 0..text.len() {
        let Some((byte, others)) = rest.split_first() else {
            break;
        };
        write_character(out, byte);
        rest = others;
    }
}

/// The bytes of a string.
pub(crate) fn write_text(out: &mut Answer, text: Text) {
    for byte in text.bytes() {
        write_character(out, byte);
    }
}

pub(crate) fn write_name(out: &mut Answer, name: &[u8]) {
    for byte in name {
        out.byte(*byte);
    }
}

fn write_kind(out: &mut Answer, kind: TokenKind) {
    match kind {
        TokenKind::Name(bytes) => {
            out.put("Name(");
            write_name(out, bytes);
            out.put(")");
        }
        TokenKind::Text(text) => {
            out.put("Text(");
            write_split(out, text);
            out.put(")");
        }
        TokenKind::Integer(value) => {
            out.put("Integer(");
            out.number(i64::from(value));
            out.put(")");
        }
        TokenKind::Character(byte) => {
            out.put("Character(");
            out.number(i64::from(byte));
            out.put(")");
        }
        TokenKind::Mark(mark) => out.debug(&mark),
    }
}

/// A token and its span.
fn write_token(out: &mut Answer, token: Token) {
    out.put(" ");
    write_kind(out, token.kind);
    out.put("@");
    out.number(i64::from(token.start));
    out.put("..");
    out.number(i64::from(token.end));
}

/// The number and level of each line, and its tokens.
pub(crate) fn write_lines(out: &mut Answer, lines: &[Line]) {
    for line in lines {
        out.number(i64::from(line.number));
        out.put("/");
        out.number(i64::from(line.level));
        for token in &line.tokens {
            write_token(out, *token);
        }
        out.put("\n");
    }
}
