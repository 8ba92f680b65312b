//! The long operations: arithmetic on unsigned words that carries from one word to the next.
ghost use Rattle.std.specs.Prelude.{◌≡◌, ◌+◌, ◌*◌, ◌%◌, ◌^◌, ◌≤◌, ◌<◌};
ghost use Rattle.std.specs.Int.{w32, cast_unsigned};
ghost use Rattle.word_arithmetic.specs.Long.{two_words, borrowing, long_sum, long_difference, long_product};

/// The two words of a long operation. The high word is the carry of a sum, the borrow of a difference (0 or 1), or the
/// high word of a product.
#[derive(Clone, Copy)]
pub struct LongResult {
    pub low: i32,
    pub high: i32,
}

/// The sum of two words and the lowest bit of a carry, and the carry of that. The two words may change places.
pub fn long_sum(left: i32, right: i32, carry: i32) -> LongResult
    ensures words { result ≡ long_sum left right carry }
    ensures number { cast_unsigned w32 result.low + 2 ^ 32 * cast_unsigned w32 result.high
        ≡ cast_unsigned w32 left + cast_unsigned w32 right + cast_unsigned w32 carry % 2 }
    ensures carry { cast_unsigned w32 result.high ≤ 1 }
{
    two_words(unsigned(left) + unsigned(right) + unsigned(carry) % 2)
}

/// The first word less the second and less the lowest bit of a borrow, and the borrow of that.
pub fn long_difference(left: i32, right: i32, borrow: i32) -> LongResult
    ensures words { result ≡ long_difference left right borrow }
    ensures number { cast_unsigned w32 left + 2 ^ 32 * cast_unsigned w32 result.high
        ≡ cast_unsigned w32 right + cast_unsigned w32 borrow % 2 + cast_unsigned w32 result.low }
    ensures borrow { cast_unsigned w32 result.high ≤ 1 }
{
    borrowing(unsigned(left), unsigned(right) + unsigned(borrow) % 2)
}

/// The product of two words, and a third word added to it.
pub fn long_product(left: i32, right: i32, added: i32) -> LongResult
    ensures words { result ≡ long_product left right added }
    ensures number { cast_unsigned w32 result.low + 2 ^ 32 * cast_unsigned w32 result.high
        ≡ cast_unsigned w32 left * cast_unsigned w32 right + cast_unsigned w32 added }
{
    two_words(unsigned(left) * unsigned(right) + unsigned(added))
}

/// A word as the number from 0 that its bits spell.
fn unsigned(word: i32) -> u64
    ensures value { result ≡ cast_unsigned w32 word }
    ensures bound { result < 2 ^ 32 }
{
    u64::from(word.cast_unsigned())
}

/// The low and the high word of a number.
fn two_words(number: u64) -> LongResult
    ensures words { result ≡ two_words number }
    ensures number { cast_unsigned w32 result.low + 2 ^ 32 * cast_unsigned w32 result.high ≡ number }
{
    LongResult {
        low: ((number % (1 << 32)) as u32).cast_signed(),
        high: ((number >> 32) as u32).cast_signed(),
    }
}

/// A word less another number, and the borrow.
fn borrowing(number: u64, taken: u64) -> LongResult
    requires a_word { number < 2 ^ 32 }
    requires at_most { taken ≤ 2 ^ 32 }
    ensures { result ≡ borrowing number taken }
{
    if number < taken {
        LongResult {
            low: ((number + (1 << 32) - taken) as u32).cast_signed(),
            high: 1,
        }
    } else {
        LongResult {
            low: ((number - taken) as u32).cast_signed(),
            high: 0,
        }
    }
}
