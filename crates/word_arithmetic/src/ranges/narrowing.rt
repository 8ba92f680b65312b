//! What is left of a range once more is known of its words.
ghost use Rattle.std.specs.Prelude.{◌≡◌, IsTrue};
ghost use Rattle.word_arithmetic.specs.Comparison.{compares};
ghost use Rattle.word_arithmetic.specs.Range.{ends_of, InRange, Narrows, inside, outside, at_least, at_most, narrowed};
ghost use Rattle.word_arithmetic.specs.Range.{in_range, left_by};

use crate::compare::Comparison;
use crate::ranges::Range;

impl Range {
    /// What is left of the range inside another; the range itself where nothing is.
    pub fn inside(self, kept: Range) -> Range
        ensures rule { ends_of result ≡ inside (ends_of self) (ends_of kept) }
        ensures narrows { Narrows (λ v. InRange (ends_of kept) v) (ends_of self) (ends_of result) }
    {
        let lo = self.lo.max(kept.lo);
        let hi = self.hi.min(kept.hi);
        if hi < lo {
            return self;
        }
        Range::new(lo, hi)
    }

    /// What is left of the range outside another, where that is one range; else the range itself.
    pub fn outside(self, removed: Range) -> Range
        ensures rule { ends_of result ≡ outside (ends_of self) (ends_of removed) }
        ensures narrows { Narrows (λ v. ¬ InRange (ends_of removed) v) (ends_of self) (ends_of result) }
    {
        self.part_outside(removed)
    }

    /// The same by its rule alone: the part after the other range, or the part before it.
    fn part_outside(self, removed: Range) -> Range
        ensures { ends_of result ≡ outside (ends_of self) (ends_of removed) }
    {
        if removed.contains(self.lo) {
            if removed.contains(self.hi) {
                // Nothing is left.
                return self;
            }
            return Range::new(removed.hi + 1, self.hi);
        }
        if removed.contains(self.hi) {
            return Range::new(self.lo, removed.lo - 1);
        }
        // Two ranges are left, or all of this one.
        self
    }

    /// What is left of the range by a test whether a number lies in another one, where that is one range; else the
    /// range itself.
    pub fn left_by(self, is_inside: bool, other: Range) -> Range
        ensures rule { ends_of result ≡ left_by is_inside (ends_of self) (ends_of other) }
        ensures narrows { Narrows (λ v. in_range (ends_of other) v ≡ is_inside) (ends_of self) (ends_of result) }
    {
        self.part_left(is_inside, other)
    }

    /// The same by its rule alone.
    fn part_left(self, is_inside: bool, other: Range) -> Range
        ensures { ends_of result ≡ left_by is_inside (ends_of self) (ends_of other) }
    {
        if is_inside {
            self.inside(other)
        } else {
            self.outside(other)
        }
    }

    /// What is left of the range by a comparison with a constant, where that is one range; else the range itself.
    pub fn narrow(self, comparison: Comparison, constant: i32) -> Range
        ensures rule { ends_of result ≡ narrowed comparison constant (ends_of self) }
        ensures narrows { Narrows (λ v. IsTrue (compares comparison v constant))
            (ends_of self) (ends_of result) }
    {
        self.narrowed(comparison, constant)
    }

    /// The same by its rule alone, a line for each comparison.
    fn narrowed(self, comparison: Comparison, constant: i32) -> Range
        ensures { ends_of result ≡ narrowed comparison constant (ends_of self) }
    {
        match comparison {
            Comparison::Equal => self.inside(Range::constant(constant)),
            Comparison::NotEqual => self.outside(Range::constant(constant)),
            Comparison::Less => self.outside(Range::at_least(constant)),
            Comparison::LessOrEqual => self.inside(Range::at_most(constant)),
            Comparison::Greater => self.outside(Range::at_most(constant)),
            Comparison::GreaterOrEqual => self.inside(Range::at_least(constant)),
        }
    }

    /// The words from this one on.
    pub fn at_least(word: i32) -> Range
        ensures { ends_of result ≡ at_least word }
    {
        Range {
            lo: word,
            hi: i32::MAX,
        }
    }

    /// The words up to this one.
    pub fn at_most(word: i32) -> Range
        ensures { ends_of result ≡ at_most word }
    {
        Range {
            lo: i32::MIN,
            hi: word,
        }
    }
}
