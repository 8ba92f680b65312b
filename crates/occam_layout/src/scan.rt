//! The token that begins a text.

ghost use Rattle.std.specs.Prelude.{◌≡◌, ◌<◌, ◌≤◌, ◌+◌, ◌*◌, ◌^◌, List, ℕ, length, option_map, if◌then◌else◌, nat_le};
ghost use Rattle.std.specs.Prelude.{Some, None, Ok, Err, IfOk};
ghost use Rattle.std.specs.List.{prefix_len};
ghost use Rattle.std.specs.Char.{is_ascii_digit, is_ascii_hexdigit};
ghost use Rattle.occam_layout.specs.Kind.{kind_of, bytes_of};
ghost use Rattle.occam_layout.specs.Reading.{is_name_byte, value, seen, seen_text, word_at, decimal_at, hexadecimal_at};
ghost use Rattle.occam_layout.specs.Reading.{quoted_at, character_at, string_at, sign_at, token_at};

use crate::fault::Fault;
use crate::text::{Text, body_len, digit_value};
use crate::token::TokenKind;
use crate::words::{keyword, pair_sign, single_sign};

/// A token, and how many bytes it takes.
type Found<'a> = Result<(TokenKind<'a>, usize), Fault>;

/// The number of bytes at the front that can be in a name.
fn name_len(bytes: &[u8]) -> usize
    ensures len { result ≡ prefix_len is_name_byte bytes.now }
    ensures within { result ≤ length bytes.now }
{
    bytes
        .iter()
        .take_while(|b| b.is_ascii_alphanumeric() || **b == b'.')
        .count()
}

/// How many bytes at the front are decimal digits.
fn digits_len(bytes: &[u8]) -> usize
    ensures len { result ≡ prefix_len is_ascii_digit bytes.now }
    ensures within { result ≤ length bytes.now }
{
    bytes.iter().take_while(|b| b.is_ascii_digit()).count()
}

/// How many bytes at the front are hexadecimal digits.
fn hexadecimal_len(bytes: &[u8]) -> usize
    ensures len { result ≡ prefix_len is_ascii_hexdigit bytes.now }
    ensures within { result ≤ length bytes.now }
{
    bytes.iter().take_while(|b| b.is_ascii_hexdigit()).count()
}

#[tactic(auto, unfolding(crate::specs::Reading::word_at))]
fn word_at(bytes: &[u8]) -> (TokenKind<'_>, usize)
    ensures found { (kind_of result.0, result.1) ≡ word_at bytes.now }
    ensures within { result.1 ≤ length bytes.now }
{
    let len = name_len(bytes);
    let (text, _) = bytes.split_at(len);
    match keyword(text) {
        Some(mark) => (TokenKind::Mark(mark), len),
        None => (TokenKind::Name(text), len),
    }
}

/// The number that digits of a base spell, if it is at most `max`.
fn number_of(digits: &[u8], base: u8, max: u32) -> Option<u32>
    requires low { 0 < base }
    requires high { base ≤ 16 }
    ensures { result ≡ (if nat_le (value base digits.now) max then Some (value base digits.now) else None) }
{
    let mut number: u64 = 0;
    for digit in digits {
        number = number * u64::from(base) + u64::from(digit_value(*digit));
        if number > u64::from(max) {
            return None;
        }
    }
    Some(number as u32)
}

#[tactic(auto, unfolding(crate::specs::Reading::decimal_at))]
fn decimal_at(bytes: &[u8]) -> Found<'static>
    ensures found { seen result ≡ decimal_at bytes.now }
    ensures within { IfOk result (λ x. x.1 ≤ length bytes.now) }
{
    let len = digits_len(bytes);
    let (digits, _) = bytes.split_at(len);
    match number_of(digits, 10, 0x7fff_ffff) {
        Some(number) => Ok((TokenKind::Integer(number as i32), len)),
        None => Err(Fault::Literal),
    }
}

#[tactic(auto, unfolding(crate::specs::Reading::hexadecimal_at))]
fn hexadecimal_at(bytes: &[u8]) -> Found<'static>
    ensures found { seen result ≡ hexadecimal_at bytes.now }
    ensures within { IfOk result (λ x. x.1 ≤ length bytes.now + 1) }
{
    let len = hexadecimal_len(bytes);
    if len == 0 || len > 8 {
        return Err(Fault::Literal);
    }
    let (digits, _) = bytes.split_at(len);
    match number_of(digits, 16, u32::MAX) {
        Some(bits) => Ok((TokenKind::Integer(bits.cast_signed()), len + 1)),
        None => Err(Fault::Literal),
    }
}

/// What is between quotes, and how many bytes its spelling has.
#[tactic(auto, unfolding(crate::specs::Reading::quoted_at))]
fn quoted_at(quote: u8, bytes: &[u8]) -> Result<(Text<'_>, usize), Fault>
    ensures found { seen_text result ≡ quoted_at quote bytes.now }
    ensures within { IfOk result (λ x. x.1 < length bytes.now) }
{
    let len = body_len(quote, bytes).ok_or(Fault::Literal)?;
    let (spelling, _) = bytes.split_at(len);
    let text = Text::new(spelling).ok_or(Fault::Literal)?;
    Ok((text, len))
}

#[tactic(auto, unfolding(crate::specs::Reading::character_at))]
fn character_at(bytes: &[u8]) -> Found<'static>
    ensures found { seen result ≡ character_at bytes.now }
    ensures within { IfOk result (λ x. x.1 ≤ length bytes.now + 1) }
{
    let (text, len) = quoted_at(b'\'', bytes)?;
    match text.split_first() {
        Some((byte, others)) if others.is_empty() => Ok((TokenKind::Character(byte), len + 2)),
        _ => Err(Fault::Literal),
    }
}

#[tactic(auto, unfolding(crate::specs::Reading::string_at))]
fn string_at(bytes: &[u8]) -> Found<'_>
    ensures found { seen result ≡ string_at bytes.now }
    ensures within { IfOk result (λ x. x.1 ≤ length bytes.now + 1) }
{
    let (text, len) = quoted_at(b'"', bytes)?;
    Ok((TokenKind::Text(text), len + 2))
}

#[tactic(auto, unfolding(crate::specs::Reading::sign_at, crate::specs::Reading::single_at))]
fn sign_at(bytes: &[u8]) -> Found<'static>
    ensures found { seen result ≡ sign_at bytes.now }
    ensures within { IfOk result (λ x. x.1 ≤ length bytes.now) }
{
    let pair = match bytes {
        [first, second, ..] => pair_sign(&[*first, *second]),
        _ => None,
    };
    if let Some(mark) = pair {
        return Ok((TokenKind::Mark(mark), 2));
    }
    let first = bytes.first().ok_or(Fault::Character)?;
    let mark = single_sign(*first).ok_or(Fault::Character)?;
    Ok((TokenKind::Mark(mark), 1))
}

/// The token that begins here.
#[tactic(auto, unfolding(crate::specs::Reading::token_at))]
pub(crate) fn token_at(bytes: &[u8]) -> Found<'_>
    ensures found { seen result ≡ token_at bytes.now }
    ensures within { IfOk result (λ x. x.1 ≤ length bytes.now) }
{
    let (first, rest) = bytes.split_first().ok_or(Fault::Character)?;
    if first.is_ascii_alphabetic() {
        return Ok(word_at(bytes));
    }
    if first.is_ascii_digit() {
        return decimal_at(bytes);
    }
    match *first {
        b'#' => hexadecimal_at(rest),
        b'\'' => character_at(rest),
        b'"' => string_at(rest),
        _ => sign_at(bytes),
    }
}
