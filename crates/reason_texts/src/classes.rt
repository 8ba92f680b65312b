//! How many bytes at the front of a text are of a class.

ghost use Rattle.std.specs.Prelude.{◌≡◌, ◌≤◌, length};
ghost use Rattle.std.specs.List.{prefix_len};
ghost use Rattle.reason_texts.specs.Classes.{is_of};

/// A class of bytes.
#[derive(Clone, Copy)]
pub(crate) enum Class {
    /// A space.
    Space,
    /// A byte that ends no line.
    InLine,
    /// A character of a source.
    Character,
    /// A byte that can be in a name.
    InName,
    /// A decimal digit.
    Digit,
    /// A hexadecimal digit.
    HexadecimalDigit,
}

/// Whether a byte is of a class.
fn is_of(class: Class, byte: u8) -> bool
    ensures { result ≡ is_of class byte }
{
    match class {
        Class::Space => byte == b' ',
        Class::InLine => byte != b'\n',
        Class::Character => byte >= 32 && byte < 127,
        Class::InName => byte.is_ascii_alphanumeric() || byte == b'.',
        Class::Digit => byte.is_ascii_digit(),
        Class::HexadecimalDigit => byte.is_ascii_hexdigit(),
    }
}

/// How many bytes at the front are of a class.
pub(crate) fn front_len(class: Class, bytes: &[u8]) -> usize
    ensures len { result ≡ prefix_len (is_of class) bytes.now }
    ensures within { result ≤ length bytes.now }
{
    bytes.iter().take_while(|b| is_of(class, **b)).count()
}
