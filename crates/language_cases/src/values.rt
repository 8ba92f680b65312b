//! The bytes of messages, as cases say them.

use crate::quoted::{append_quoted, pair};
use std::alloc::Global;

/// What begins a spelling in a text, as in occam.
const SIGN: u8 = b'*';

/// Appends the bytes of pairs of hexadecimal digits. None where one cannot be read or memory runs out.
fn append_digits(out: &mut Vec<u8>, digits: &str) -> Option<()> {
    let mut rest = digits.as_bytes();
    for _ in 0..digits.len() {
        let [high, low, others @ ..] = rest else {
            break;
        };
        out.push(pair(*high, *low)?).ok()?;
        rest = others;
    }
    if rest.is_empty() { Some(()) } else { None }
}

/// Appends the bytes of numbers, four of each. None where one cannot be read or memory runs out.
fn append_numbers(out: &mut Vec<u8>, words: &str) -> Option<()> {
    for word in words.split_whitespace() {
        let number = word.parse::<i32>().ok()?;
        out.extend_from_slice(&number.to_le_bytes()).ok()?;
    }
    Some(())
}

/// The bytes of a text in quotes, of hexadecimal digits after a `#`, or of messages of INT. None where they cannot be
/// read or memory runs out.
pub(crate) fn bytes_of(alloc: Global, said: &str) -> Option<Vec<u8>> {
    let mut bytes = Vec::new(alloc);
    match said.strip_prefix('#') {
        Some(digits) => append_digits(&mut bytes, digits)?,
        None if said.starts_with('"') => append_quoted(&mut bytes, SIGN, said)?,
        None => append_numbers(&mut bytes, said)?,
    }
    Some(bytes)
}
