//! Sum, difference and product modulo 2^32.
ghost use Rattle.std.specs.Prelude.{◌≡◌};
ghost use Rattle.word_arithmetic.specs.Word.{word_sum, word_difference, word_product};

/// The sum modulo 2^32.
pub fn plus(left: i32, right: i32) -> i32
    ensures { result ≡ word_sum left right }
{
    left.wrapping_add(right)
}

/// The first less the second, modulo 2^32.
pub fn minus(left: i32, right: i32) -> i32
    ensures { result ≡ word_difference left right }
{
    left.wrapping_sub(right)
}

/// The product modulo 2^32.
pub fn times(left: i32, right: i32) -> i32
    ensures { result ≡ word_product left right }
{
    left.wrapping_mul(right)
}
