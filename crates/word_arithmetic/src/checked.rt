//! The checked operations: `None` exactly where the T414 sets the error flag. They are those of the standard library;
//! what they add is the contract.
ghost use Rattle.std.specs.Prelude.{◌≡◌};
ghost use Rattle.word_arithmetic.specs.Word.{checked_sum, checked_difference, checked_product, checked_quotient};
ghost use Rattle.word_arithmetic.specs.Word.{checked_remainder};

/// The sum; `None` if no word represents it.
pub fn checked_add(left: i32, right: i32) -> Option<i32>
    ensures { result ≡ checked_sum left right }
{
    left.checked_add(right)
}

/// The first less the second; `None` if no word represents it.
pub fn checked_sub(left: i32, right: i32) -> Option<i32>
    ensures { result ≡ checked_difference left right }
{
    left.checked_sub(right)
}

/// The product; `None` if no word represents it.
pub fn checked_mul(left: i32, right: i32) -> Option<i32>
    ensures { result ≡ checked_product left right }
{
    left.checked_mul(right)
}

/// The quotient, rounded towards zero; `None` for a divisor of 0 and for MostNeg by -1.
pub fn checked_div(dividend: i32, divisor: i32) -> Option<i32>
    ensures { result ≡ checked_quotient dividend divisor }
{
    dividend.checked_div(divisor)
}

/// The remainder, with the sign of the dividend; `None` for a divisor of 0 and for MostNeg by -1.
pub fn checked_rem(dividend: i32, divisor: i32) -> Option<i32>
    ensures { result ≡ checked_remainder dividend divisor }
{
    dividend.checked_rem(divisor)
}
