//! Operations on the bits of words.
ghost use Rattle.std.specs.Prelude.{◌≡◌, ◌<◌};
ghost use Rattle.word_arithmetic.specs.Word.{word_and, word_or, word_xor, word_not, shifted_left, shifted_right};

/// The bits that both words have.
pub fn and(left: i32, right: i32) -> i32
    ensures { result ≡ word_and left right }
{
    left & right
}

/// The bits that one of the words has, or both.
pub fn or(left: i32, right: i32) -> i32
    ensures { result ≡ word_or left right }
{
    left | right
}

/// The bits that exactly one of the words has.
pub fn xor(left: i32, right: i32) -> i32
    ensures { result ≡ word_xor left right }
{
    left ^ right
}

/// The bits that the word doesn't have.
pub fn not(word: i32) -> i32
    ensures { result ≡ word_not word }
{
    !word
}

/// The word shifted left by 0 to 31 bits; zeros come in at the low end, and what leaves the word is lost.
pub fn shift_left(word: i32, count: u32) -> i32
    requires { count < 32 }
    ensures { result ≡ shifted_left word count }
{
    word << count
}

/// The word shifted right by 0 to 31 bits; zeros come in at the high end.
pub fn shift_right(word: i32, count: u32) -> i32
    requires { count < 32 }
    ensures { result ≡ shifted_right word count }
{
    (word.cast_unsigned() >> count).cast_signed()
}
