//! Ranges of words: what can be said of a number before the program runs.
ghost use Rattle.std.specs.Prelude.{◌≡◌, ◌≢◌, ◌≤ℤ◌, ◌↔◌, IsTrue, MatchOption};
ghost use Rattle.std.specs.Option.{option_map};

mod bits;
mod checked;
mod modular;
mod narrowing;
mod wide;

/// The words from `lo` to `hi`, both included. There is at least one.
#[derive(Clone, Copy, Debug, PartialEq, Eq)]
pub struct Range {
    pub lo: i32,
    pub hi: i32,
    pub ghost ordered: { lo ≤ℤ hi },
}

impl Range {
    ghost use Rattle.word_arithmetic.specs.Range.{Ends, ends_of, InRange, IsWithin, in_range, is_within, constant};
    ghost use Rattle.word_arithmetic.specs.Range.{only_number, bytes, full, hull, range_between, truths};

    /// The words from `lo` to `hi`.
    pub fn new(lo: i32, hi: i32) -> Self
        requires { lo ≤ℤ hi }
        ensures lo { result.lo ≡ lo }
        ensures hi { result.hi ≡ hi }
    {
        Range { lo, hi }
    }

    /// The words from `lo` to `hi`; `None` where there is none.
    #[tactic(auto, using(crate::proofs::WordLaws::is_word_in))]
    pub fn between(lo: i32, hi: i32) -> Option<Self>
        ensures { option_map ends_of result ≡ range_between lo hi }
    {
        if hi < lo {
            return None;
        }
        Some(Range::new(lo, hi))
    }

    /// One word alone.
    pub fn constant(word: i32) -> Self
        ensures { ends_of result ≡ constant word }
    {
        Range { lo: word, hi: word }
    }

    /// All words.
    pub fn full() -> Self
        ensures { ends_of result ≡ full }
    {
        Range {
            lo: i32::MIN,
            hi: i32::MAX,
        }
    }

    /// The truth values: 0 for false and 1 for true.
    pub fn truths() -> Self
        ensures { ends_of result ≡ truths }
    {
        Range { lo: 0, hi: 1 }
    }

    /// Whether the word lies in the range.
    pub fn contains(&self, word: i32) -> bool
        ensures rule { result ≡ in_range (ends_of self.now) word }
        ensures member { IsTrue result ↔ InRange (ends_of self.now) word }
    {
        self.lo <= word && word <= self.hi
    }

    /// The word, where the range has only one.
    pub fn is_constant(&self) -> Option<i32>
        ensures rule { result ≡ only_number (ends_of self.now) }
        ensures word { MatchOption result
            (self.now.lo ≢ self.now.hi)
            (λ word. ends_of self.now ≡ constant word) }
    {
        if self.lo == self.hi {
            Some(self.lo)
        } else {
            None
        }
    }

    /// Whether each word of this range lies in the other one.
    pub fn fits_within(&self, outer: Range) -> bool
        ensures rule { result ≡ is_within (ends_of self.now) (ends_of outer) }
        ensures members { IsTrue result ↔ IsWithin (ends_of self.now) (ends_of outer) }
    {
        outer.lo <= self.lo && self.hi <= outer.hi
    }

    /// Whether each word of the range is the value of a BYTE, 0 to 255.
    pub fn fits_byte(&self) -> bool
        ensures rule { result ≡ is_within (ends_of self.now) bytes }
        ensures members { IsTrue result ↔ IsWithin (ends_of self.now) bytes }
    {
        self.fits_within(Range { lo: 0, hi: 255 })
    }

    /// The least range that has all words of both.
    pub fn hull(self, other: Range) -> Self
        ensures rule { ends_of result ≡ hull (ends_of self) (ends_of other) }
        ensures left { IsWithin (ends_of self) (ends_of result) }
        ensures right { IsWithin (ends_of other) (ends_of result) }
        ensures least { (t : Ends) → IsWithin (ends_of self) t → IsWithin (ends_of other) t
            → IsWithin (ends_of result) t }
    {
        Range {
            lo: self.lo.min(other.lo),
            hi: self.hi.max(other.hi),
        }
    }
}
