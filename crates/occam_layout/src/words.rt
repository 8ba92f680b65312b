//! Keywords and signs, by their spelling.

ghost use Rattle.std.specs.Prelude.{◌≡◌, [], ◌∷◌, length, option_map};
ghost use Rattle.occam_layout.specs.Kind.{marked, keywords, keyword_among, keywords_of_len, sign_of};

use crate::mark::Mark;

/// The keyword that is spelled so, if one is.
pub(crate) fn keyword(text: &[u8]) -> Option<Mark>
    ensures { option_map marked result ≡ keyword_among keywords text.now }
{
    match text.len() {
        2 => keyword_of_two(text),
        3 => keyword_of_three(text),
        4 => keyword_of_four(text),
        5 => keyword_of_five(text),
        7 => keyword_of_seven(text),
        _ => None,
    }
}

fn keyword_of_two(text: &[u8]) -> Option<Mark>
    requires { length text.now ≡ 2 }
    ensures { option_map marked result ≡ keyword_among (keywords_of_len 2) text.now }
{
    if text == b"IS".as_slice() {
        Some(Mark::Is)
    } else if text == b"OF".as_slice() {
        Some(Mark::Of)
    } else if text == b"IF".as_slice() {
        Some(Mark::If)
    } else if text == b"OR".as_slice() {
        Some(Mark::Or)
    } else {
        None
    }
}

fn keyword_of_three(text: &[u8]) -> Option<Mark>
    requires { length text.now ≡ 3 }
    ensures { option_map marked result ≡ keyword_among (keywords_of_len 3) text.now }
{
    if text == b"VAL".as_slice() {
        Some(Mark::Val)
    } else if text == b"INT".as_slice() {
        Some(Mark::Int)
    } else if text == b"SEQ".as_slice() {
        Some(Mark::Seq)
    } else if text == b"PAR".as_slice() {
        Some(Mark::Par)
    } else if text == b"ALT".as_slice() {
        Some(Mark::Alt)
    } else if text == b"FOR".as_slice() {
        Some(Mark::For)
    } else if text == b"AND".as_slice() {
        Some(Mark::And)
    } else if text == b"NOT".as_slice() {
        Some(Mark::Not)
    } else {
        None
    }
}

fn keyword_of_four(text: &[u8]) -> Option<Mark>
    requires { length text.now ≡ 4 }
    ensures { option_map marked result ≡ keyword_among (keywords_of_len 4) text.now }
{
    if text == b"BYTE".as_slice() {
        Some(Mark::Byte)
    } else if text == b"PROC".as_slice() {
        Some(Mark::Proc)
    } else if text == b"CHAN".as_slice() {
        Some(Mark::Chan)
    } else if text == b"SKIP".as_slice() {
        Some(Mark::Skip)
    } else if text == b"STOP".as_slice() {
        Some(Mark::Stop)
    } else if text == b"PLUS".as_slice() {
        Some(Mark::Plus)
    } else if text == b"TRUE".as_slice() {
        Some(Mark::True)
    } else {
        None
    }
}

fn keyword_of_five(text: &[u8]) -> Option<Mark>
    requires { length text.now ≡ 5 }
    ensures { option_map marked result ≡ keyword_among (keywords_of_len 5) text.now }
{
    if text == b"MINUS".as_slice() {
        Some(Mark::Minus)
    } else if text == b"TIMES".as_slice() {
        Some(Mark::Times)
    } else if text == b"FALSE".as_slice() {
        Some(Mark::False)
    } else {
        None
    }
}

fn keyword_of_seven(text: &[u8]) -> Option<Mark>
    requires { length text.now ≡ 7 }
    ensures { option_map marked result ≡ keyword_among (keywords_of_len 7) text.now }
{
    if text == b"MOSTPOS".as_slice() {
        return Some(Mark::MostPos);
    }
    if text == b"MOSTNEG".as_slice() {
        return Some(Mark::MostNeg);
    }
    None
}

/// The sign of two bytes that is spelled so, if one is.
pub(crate) fn pair_sign(text: &[u8]) -> Option<Mark>
    requires { length text.now ≡ 2 }
    ensures { option_map marked result ≡ sign_of text.now }
{
    match text {
        b":=" => Some(Mark::Assign),
        b"/\\" => Some(Mark::BitAnd),
        b"\\/" => Some(Mark::BitOr),
        b"><" => Some(Mark::BitXor),
        b"<<" => Some(Mark::ShiftLeft),
        b">>" => Some(Mark::ShiftRight),
        b"<>" => Some(Mark::NotEqual),
        b"<=" => Some(Mark::LessOrEqual),
        b">=" => Some(Mark::GreaterOrEqual),
        _ => None,
    }
}

/// The sign of one byte that is spelled so, if one is.
pub(crate) fn single_sign(byte: u8) -> Option<Mark>
    ensures { option_map marked result ≡ sign_of (byte ∷ []) }
{
    match byte {
        b':' => Some(Mark::Colon),
        b',' => Some(Mark::Comma),
        b'(' => Some(Mark::OpenParenthesis),
        b')' => Some(Mark::CloseParenthesis),
        b'[' => Some(Mark::OpenBracket),
        b']' => Some(Mark::CloseBracket),
        b'?' => Some(Mark::Input),
        b'!' => Some(Mark::Output),
        b'&' => Some(Mark::Guard),
        b'+' => Some(Mark::Add),
        b'-' => Some(Mark::Subtract),
        b'*' => Some(Mark::Multiply),
        b'/' => Some(Mark::Divide),
        b'\\' => Some(Mark::Remainder),
        b'~' => Some(Mark::BitNot),
        b'=' => Some(Mark::Equal),
        b'<' => Some(Mark::Less),
        b'>' => Some(Mark::Greater),
        _ => None,
    }
}
