//! The ranges of sums, differences and products modulo 2^32: exact where no result leaves a word, else all words.
ghost use Rattle.std.specs.Prelude.{◌≡◌};
ghost use Rattle.word_arithmetic.specs.Word.{word_sum, word_difference, word_product};
ghost use Rattle.word_arithmetic.specs.Range.{ends_of, ResultsStay, word_sum_range, word_difference_range};
ghost use Rattle.word_arithmetic.specs.Range.{word_product_range};

use crate::ranges::Range;
use crate::ranges::wide::or_full;

impl Range {
    /// The range of the sums modulo 2^32.
    pub fn plus(self, other: Range) -> Range
        ensures rule { ends_of result ≡ word_sum_range (ends_of self) (ends_of other) }
        ensures members { ResultsStay word_sum (ends_of self) (ends_of other) (ends_of result) }
    {
        or_full(self.add(other))
    }

    /// The range of the differences modulo 2^32, this range's words less the other's.
    pub fn minus(self, other: Range) -> Range
        ensures rule { ends_of result ≡ word_difference_range (ends_of self) (ends_of other) }
        ensures members { ResultsStay word_difference (ends_of self) (ends_of other) (ends_of result) }
    {
        or_full(self.sub(other))
    }

    /// The range of the products modulo 2^32.
    pub fn times(self, other: Range) -> Range
        ensures rule { ends_of result ≡ word_product_range (ends_of self) (ends_of other) }
        ensures members { ResultsStay word_product (ends_of self) (ends_of other) (ends_of result) }
    {
        or_full(self.mul(other))
    }
}
