//! How long tokens are, and what is wrong where none begins.

ghost use Rattle.std.specs.Prelude.{◌≡◌, ◌<◌, ◌≤◌, ◌+◌, ◌^◌, ◌∷◌, [], List, ℕ, length, IfOk, IfErr, IfSome, nat_lt};
ghost use Rattle.std.specs.Char.{digit_value};
ghost use Rattle.occam_layout.specs.Kind.{is_sign};
ghost use Rattle.occam_layout.specs.Reading.{value};
ghost use Rattle.reason_texts.specs.Tokens.{decimal_len, hexadecimal_len, quoted, character_len, string_len};
ghost use Rattle.reason_texts.specs.Tokens.{bad, sign_len, single_len, token_len, bad_token};

use crate::classes::{Class, front_len};
use crate::quotes::{body_len, characters_in};

/// What is wrong where a token should begin.
#[derive(Clone, Copy)]
pub(crate) enum TokenFault {
    /// No token begins with this byte.
    NoToken,
    /// Decimal digits spell a number above the greatest INT.
    LargeNumber,
    /// A `#` is followed by this number of hexadecimal digits, and not by 1 to 8.
    HexadecimalDigits(usize),
    /// No quote ends the literal on its line.
    Unclosed,
    /// An asterisk between quotes begins no spelling of a character.
    Unspelled,
    /// Between single quotes is not one character.
    NotOneCharacter,
}

/// What is wrong where a token should begin, and the bytes that are meant.
#[derive(Clone, Copy)]
pub(crate) struct BadToken {
    /// How many bytes are before them.
    pub at: usize,
    /// How many they are.
    pub len: usize,
    /// What is wrong with them.
    pub fault: TokenFault,
}

/// These bytes are wrong.
fn bad(fault: TokenFault, at: usize, len: usize) -> BadToken
    ensures { result ≡ bad fault at len }
{
    BadToken { at, len, fault }
}

/// The value of a digit, a letter from 10 on, and 36 for what is neither.
fn digit_value(digit: u8) -> u8
    ensures value { result ≡ digit_value digit }
    ensures bound { result ≤ 36 }
{
    match digit {
        b'0'..=b'9' => digit - b'0',
        b'A'..=b'Z' => digit - b'A' + 10,
        b'a'..=b'z' => digit - b'a' + 10,
        _ => 36,
    }
}

/// Whether decimal digits spell an INT.
fn is_int(digits: &[u8]) -> bool
    ensures { result ≡ nat_lt (value 10 digits.now) (2 ^ 31) }
{
    let mut number: u64 = 0;
    for digit in digits {
        number = number * 10 + u64::from(digit_value(*digit));
        if number > 0x7fff_ffff {
            return false;
        }
    }
    true
}

#[tactic(auto, unfolding(crate::specs::Tokens::decimal_len))]
fn decimal_len(bytes: &[u8]) -> Result<usize, BadToken>
    ensures found { result ≡ decimal_len bytes.now }
    ensures place { IfErr result (λ b. b.at ≤ length bytes.now) }
    ensures within { IfOk result (λ n. n ≤ length bytes.now) }
{
    let len = front_len(Class::Digit, bytes);
    let (digits, _) = bytes.split_at(len);
    if is_int(digits) {
        Ok(len)
    } else {
        Err(bad(TokenFault::LargeNumber, 0, len))
    }
}

#[tactic(auto, unfolding(crate::specs::Tokens::hexadecimal_len))]
fn hexadecimal_len(bytes: &[u8]) -> Result<usize, BadToken>
    ensures found { result ≡ hexadecimal_len bytes.now }
    ensures place { IfErr result (λ b. b.at ≤ length bytes.now + 1) }
    ensures within { IfOk result (λ n. n ≤ length bytes.now + 1) }
{
    let count = front_len(Class::HexadecimalDigit, bytes);
    if count == 0 || count > 8 {
        return Err(bad(TokenFault::HexadecimalDigits(count), 0, count + 1));
    }
    Ok(count + 1)
}

/// How many characters and bytes are between quotes, from behind the quote that begins the literal.
#[tactic(auto, unfolding(crate::specs::Tokens::quoted))]
fn quoted(quote: u8, bytes: &[u8]) -> Result<(usize, usize), BadToken>
    ensures found { result ≡ quoted quote bytes.now }
    ensures place { IfErr result (λ b. b.at ≤ length bytes.now + 1) }
    ensures within { IfOk result (λ x. x.1 < length bytes.now) }
{
    let Some(len) = body_len(quote, bytes) else {
        return Err(bad(TokenFault::Unclosed, 0, 1));
    };
    let (body, _) = bytes.split_at(len);
    match characters_in(body) {
        Ok(count) => Ok((count, len)),
        Err(at) => Err(bad(TokenFault::Unspelled, at + 1, 2)),
    }
}

#[tactic(auto, unfolding(crate::specs::Tokens::character_len))]
fn character_len(bytes: &[u8]) -> Result<usize, BadToken>
    ensures found { result ≡ character_len bytes.now }
    ensures place { IfErr result (λ b. b.at ≤ length bytes.now + 1) }
    ensures within { IfOk result (λ n. n ≤ length bytes.now + 1) }
{
    let (count, len) = quoted(b'\'', bytes)?;
    if count == 1 {
        Ok(len + 2)
    } else {
        Err(bad(TokenFault::NotOneCharacter, 0, len + 2))
    }
}

#[tactic(auto, unfolding(crate::specs::Tokens::string_len))]
fn string_len(bytes: &[u8]) -> Result<usize, BadToken>
    ensures found { result ≡ string_len bytes.now }
    ensures place { IfErr result (λ b. b.at ≤ length bytes.now + 1) }
    ensures within { IfOk result (λ n. n ≤ length bytes.now + 1) }
{
    let (_, len) = quoted(b'"', bytes)?;
    Ok(len + 2)
}

/// Whether two bytes are a sign.
fn is_pair(text: &[u8]) -> bool
    requires { length text.now ≡ 2 }
    ensures { result ≡ is_sign text.now }
{
    match text {
        b":=" => true,
        b"/\\" => true,
        b"\\/" => true,
        b"><" => true,
        b"<<" => true,
        b">>" => true,
        b"<>" => true,
        b"<=" => true,
        b">=" => true,
        _ => false,
    }
}

/// Whether a byte is a sign.
fn is_single(byte: u8) -> bool
    ensures { result ≡ is_sign (byte ∷ []) }
{
    matches!(
        byte,
        b':' | b','
            | b'('
            | b')'
            | b'['
            | b']'
            | b'?'
            | b'!'
            | b'&'
            | b'+'
            | b'-'
            | b'*'
            | b'/'
            | b'\\'
            | b'~'
            | b'='
            | b'<'
            | b'>'
    )
}

#[tactic(auto, unfolding(crate::specs::Tokens::sign_len, crate::specs::Tokens::single_len))]
fn sign_len(bytes: &[u8]) -> Result<usize, BadToken>
    ensures found { result ≡ sign_len bytes.now }
    ensures place { IfErr result (λ b. b.at ≤ length bytes.now) }
    ensures within { IfOk result (λ n. n ≤ length bytes.now) }
{
    match bytes {
        [first, second, ..] if is_pair(&[*first, *second]) => Ok(2),
        [first, ..] if is_single(*first) => Ok(1),
        _ => Err(bad(TokenFault::NoToken, 0, 1)),
    }
}

/// How many bytes the token takes that begins here.
#[tactic(auto, unfolding(crate::specs::Tokens::token_len))]
pub(crate) fn token_len(bytes: &[u8]) -> Result<usize, BadToken>
    ensures found { result ≡ token_len bytes.now }
    ensures place { IfErr result (λ b. b.at ≤ length bytes.now) }
    ensures within { IfOk result (λ n. n ≤ length bytes.now) }
{
    let Some((first, rest)) = bytes.split_first() else {
        return Err(bad(TokenFault::NoToken, 0, 1));
    };
    if first.is_ascii_alphabetic() {
        return Ok(front_len(Class::InName, bytes));
    }
    if first.is_ascii_digit() {
        return decimal_len(bytes);
    }
    match *first {
        b'#' => hexadecimal_len(rest),
        b'\'' => character_len(rest),
        b'"' => string_len(rest),
        _ => sign_len(bytes),
    }
}

/// The first bad token of a line that goes on behind this number of bytes.
#[tactic(auto, unfolding(crate::specs::Tokens::bad_token))]
pub(crate) fn bad_token(column: usize, line: &[u8]) -> Option<BadToken>
    requires { column + length line.now < 2 ^ 32 }
    ensures found { result ≡ bad_token 0 column line.now }
    ensures within { IfSome result (λ b. b.at ≤ column + length line.now) }
{
    let mut passed = 0;
    let mut at = column;
    let mut rest = line;
    while let Some((first, others)) = rest.split_first() {
        if passed > 0 {
            passed -= 1;
        } else if *first != b' ' {
            if rest.starts_with(b"--") {
                return None;
            }
            match token_len(rest) {
                Ok(len) => passed = len.saturating_sub(1),
                Err(found) => return Some(bad(found.fault, at + found.at, found.len)),
            }
        }
        at += 1;
        rest = others;
    }
    None
}
