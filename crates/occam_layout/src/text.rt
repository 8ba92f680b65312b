//! The characters between the quotes of a literal.

ghost use Rattle.std.specs.Prelude.{◌≡◌, ◌+◌, ◌∷◌, List, ℕ, [], true, false, ◌&&◌, Some, None, if◌then◌else◌, ◌<◌, ◌≤◌};
ghost use Rattle.std.specs.Prelude.{◌*◌, length, IfSome, IsTrue, ◌↔◌, ◌-◌, MatchOption, IsSome, is_some, option_map};
ghost use Rattle.std.specs.Prelude.{unwrap_or, drop};
ghost use Rattle.std.specs.Char.{is_ascii_hexdigit, digit_value};
ghost use Rattle.occam_layout.specs.Characters.{escape, character_at, decoded, body_len};

/// The bytes of a string: lent from the source as they are spelled, and seen as what they denote.
#[derive(Clone, Copy)]
pub struct Text<'a> {
    spelling: &'a [u8],
    ghost well_formed: { IsSome (decoded 0 spelling.now) },
}

fn escape(sign: u8) -> Option<u8>
    ensures { result ≡ escape sign }
{
    match sign {
        b'c' => Some(b'\r'),
        b'n' => Some(b'\n'),
        b't' => Some(b'\t'),
        b's' => Some(b' '),
        b'\'' | b'"' | b'*' => Some(sign),
        _ => None,
    }
}

/// The value of a digit, a letter from 10 on, and 36 for what is neither.
pub(crate) fn digit_value(digit: u8) -> u8
    ensures value { result ≡ digit_value digit }
    ensures bound { result ≤ 36 }
{
    match digit {
        b'0'..=b'9' => digit - b'0',
        b'A'..=b'Z' => digit - b'A' + 10,
        b'a'..=b'z' => digit - b'a' + 10,
        _ => 36,
    }
}

/// The byte that two hexadecimal digits spell.
fn coded(high: u8, low: u8) -> Option<u8>
    ensures { result ≡ (if is_ascii_hexdigit high && is_ascii_hexdigit low then Some
        (16 * digit_value high + digit_value low) else None) }
{
    if high.is_ascii_hexdigit() && low.is_ascii_hexdigit() {
        Some(digit_value(high) * 16 + digit_value(low))
    } else {
        None
    }
}

/// What a byte between quotes, the first of a character, denotes, and how many bytes the character takes.
#[tactic(auto, unfolding(crate::specs::Characters::character_at))]
fn character_at(bytes: &[u8]) -> Option<(u8, usize)>
    ensures found { option_map (λ x. (x.0, x.1 - 1)) result ≡ character_at bytes.now }
    ensures len { IfSome result (λ x. (0 < x.1) × (x.1 ≤ length bytes.now)) }
{
    match bytes {
        [] => None,
        [b'*', b'#', high, low, ..] => Some((coded(*high, *low)?, 4)),
        [b'*', sign, ..] => Some((escape(*sign)?, 2)),
        [b'*'] => None,
        [byte, ..] => Some((*byte, 1)),
    }
}

/// The number of bytes before the quote that ends a literal.
pub(crate) fn body_len(quote: u8, bytes: &[u8]) -> Option<usize>
    ensures len { result ≡ body_len quote false bytes.now }
    ensures within { IfSome result (λ n. n < length bytes.now) }
{
    let mut starred = false;
    for (i, b) in bytes.iter().enumerate() {
        if starred {
            starred = false;
        } else if *b == quote {
            return Some(i);
        } else {
            starred = *b == b'*';
        }
    }
    None
}

impl<'a> Text<'a> {
    ghost use Rattle.occam_layout.specs.Kind.{bytes_of};

    /// The string with these characters between its quotes, where each is well formed.
    pub(crate) fn new(spelling: &'a [u8]) -> Option<Text<'a>>
        ensures { option_map bytes_of result ≡ decoded 0 spelling.now }
    {
        let mut rest = spelling;
        while !rest.is_empty() {
            let (_, len) = character_at(rest)?;
            (_, rest) = rest.split_at(len);
        }
        Some(Text { spelling })
    }

    /// Whether the string has no bytes.
    pub fn is_empty(self) -> bool
        ensures { IsTrue result ↔ (bytes_of self.entry ≡ []) }
    {
        self.spelling.is_empty()
    }

    /// The number of bytes.
    pub fn len(self) -> usize
        ensures { result ≡ length (bytes_of self.entry) }
    {
        self.bytes().count()
    }

    /// The bytes from left to right.
    pub fn bytes(self) -> TextBytes<'a>
        ensures { bytes_of result.rest ≡ bytes_of self.entry }
    {
        TextBytes { rest: self }
    }

    /// The first byte and the others, unless there is none.
    pub fn split_first(self) -> Option<(u8, Text<'a>)>
        ensures { MatchOption result (bytes_of self.entry ≡ []) (λ x. bytes_of self.entry ≡ x.0 ∷ bytes_of x.1) }
    {
        let (byte, len) = character_at(self.spelling)?;
        let (_, spelling) = self.spelling.split_at(len);
        Some((byte, Text { spelling }))
    }
}

/// The bytes of a string, from left to right.
#[derive(Drop)]
pub struct TextBytes<'a> {
    rest: Text<'a>,
}

impl<'a> Iterator for TextBytes<'a> {
    ghost use Rattle.std.specs.Iterator.{YieldsFirst, item_count};
    ghost use Rattle.occam_layout.specs.Kind.{bytes_of};

    type Item = u8;

    ghost next_gives = { YieldsFirst (λ s. bytes_of s.rest) };

    ghost remaining = { item_count (λ s. bytes_of s.rest) };

    fn next(&mut self) -> Option<u8> {
        let (byte, rest) = self.rest.split_first()?;
        self.rest = rest;
        Some(byte)
    }
}
