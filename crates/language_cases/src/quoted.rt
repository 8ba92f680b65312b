//! Texts in quotes.

/// The value of a hexadecimal digit.
fn digit(byte: u8) -> Option<u8> {
    match byte {
        b'0'..=b'9' => Some(byte - b'0'),
        b'a'..=b'f' => Some(byte - b'a' + 10),
        _ => None,
    }
}

/// The byte of two hexadecimal digits.
pub(crate) fn pair(high: u8, low: u8) -> Option<u8> {
    Some(digit(high)?.wrapping_mul(16) | digit(low)?)
}

/// The first character of a text, and how many bytes it takes. A sign begins a spelling: with `n` a line feed, with `t`
/// a tab, with `x` or `#` and two hexadecimal digits a byte, and with a quote or itself that character.
fn character(sign: u8, text: &[u8]) -> Option<(u8, usize)> {
    match text {
        [first, ..] if *first != sign => Some((*first, 1)),
        [_, b'n', ..] => Some((b'\n', 2)),
        [_, b't', ..] => Some((b'\t', 2)),
        [_, b'x' | b'#', high, low, ..] => Some((pair(*high, *low)?, 4)),
        [_, second, ..] if *second == sign || *second == b'"' => Some((*second, 2)),
        _ => None,
    }
}

/// What is between the first and the last quote of a line.
fn within_quotes(line: &str) -> Option<&str> {
    line.strip_prefix('"')?.strip_suffix('"')
}

/// Appends the text between the quotes of a line, where this sign begins a spelling. None where it cannot be read or
/// memory runs out.
pub(crate) fn append_quoted(out: &mut Vec<u8>, sign: u8, line: &str) -> Option<()> {
    let text = within_quotes(line)?;
    let mut rest = text.as_bytes();
    for _ in 0..text.len() {
        if rest.is_empty() {
            break;
        }
        let (byte, taken) = character(sign, rest)?;
        out.push(byte).ok()?;
        rest = rest.get(taken..).unwrap_or(&[]);
    }
    Some(())
}
