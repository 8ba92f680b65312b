//! How long the spellings of operands are.

ghost use Rattle.std.specs.Prelude.{◌≡◌, ◌≤◌, ℕ, length};
ghost use Rattle.prefix_decoder.specs.declared.function.Fun.{Fun};
ghost use Rattle.prefix_decoder.specs.Spelling.{natural_spelling, spelling};

/// How many bytes an operand that isn't negative takes: one for each nibble.
fn natural_len(operand: u32) -> u8
    ensures value { (code : ℕ) → result ≡ length (natural_spelling 7 code operand) }
    ensures small { result ≤ 8 }
{
    if operand < 16 {
        1
    } else {
        1 + natural_len(operand >> 4)
    }
}

/// How many bytes an operand takes, whatever its function.
pub(crate) fn spelling_len(operand: i32) -> u8
    ensures value { (f : Fun) → result ≡ length (spelling f operand) }
    ensures small { result ≤ 8 }
{
    let word = operand.cast_unsigned();
    if operand >= 0 {
        natural_len(word)
    } else {
        1 + natural_len(!word >> 4)
    }
}
