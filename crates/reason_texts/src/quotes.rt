//! The characters between the quotes of a literal.

ghost use Rattle.std.specs.Prelude.{◌≡◌, ◌+◌, ◌*◌, ◌∷◌, List, ℕ, [], true, false, ◌&&◌, Some, None, if◌then◌else◌};
ghost use Rattle.std.specs.Prelude.{◌<◌, ◌≤◌, length, IfErr, IfSome, option_map, is_some};
ghost use Rattle.std.specs.Char.{is_ascii_hexdigit};
ghost use Rattle.occam_layout.specs.Characters.{escape, character_at, body_len};
ghost use Rattle.reason_texts.specs.Tokens.{characters_in};

/// Whether a byte after an asterisk denotes a character.
fn is_escape(sign: u8) -> bool
    ensures { result ≡ is_some (escape sign) }
{
    matches!(sign, b'c' | b'n' | b't' | b's' | b'\'' | b'"' | b'*')
}

/// How many bytes the first character between quotes takes behind its first, if it is spelled as one is.
#[tactic(auto, unfolding(occam_layout::specs::Characters::character_at))]
fn others_len(bytes: &[u8]) -> Option<usize>
    ensures found { result ≡ option_map (λ x. x.1) (character_at bytes.now) }
    ensures within { IfSome result (λ n. n < length bytes.now) }
{
    match bytes {
        [] => None,
        [b'*', b'#', high, low, ..] => {
            if high.is_ascii_hexdigit() && low.is_ascii_hexdigit() {
                Some(3)
            } else {
                None
            }
        }
        [b'*', sign, ..] => { if is_escape(*sign) { Some(1) } else { None } }
        [b'*'] => None,
        [_, ..] => Some(0),
    }
}

/// The number of bytes before the quote that ends a literal.
pub(crate) fn body_len(quote: u8, bytes: &[u8]) -> Option<usize>
    ensures len { result ≡ body_len quote false bytes.now }
    ensures within { IfSome result (λ n. n < length bytes.now) }
{
    let mut starred = false;
    for (i, b) in bytes.iter().enumerate() {
        if starred {
            starred = false;
        } else if *b == quote {
            return Some(i);
        } else {
            starred = *b == b'*';
        }
    }
    None
}

/// How many characters are spelled between quotes, or the first place where none is.
#[tactic(auto, unfolding(crate::specs::Tokens::characters_in))]
pub(crate) fn characters_in(body: &[u8]) -> Result<usize, usize>
    ensures found { result ≡ characters_in 0 0 0 body.now }
    ensures place { IfErr result (λ at. at ≤ length body.now) }
{
    let mut passed = 0;
    let mut count = 0;
    let mut at = 0;
    let mut rest = body;
    while let Some((_, others)) = rest.split_first() {
        if passed > 0 {
            passed -= 1;
        } else {
            match others_len(rest) {
                Some(len) => passed = len,
                None => return Err(at),
            }
            count += 1;
        }
        at += 1;
        rest = others;
    }
    Ok(count)
}
