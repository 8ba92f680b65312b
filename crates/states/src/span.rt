//! Spans of words: what is known of them together, and what is left of what was known.

ghost use Rattle.std.specs.Prelude.{◌≡◌, ◌&&◌, Some};
ghost use Rattle.module_format.specs.declared.fact.Fact.TheVariants.{Number};
ghost use Rattle.states.specs.Below.{implies};
ghost use Rattle.states.specs.Rows.{LoopFits};
ghost use Rattle.states.specs.Spans.{of_none, with_plain, with_one, with_silent, joined, widened, left_of};
ghost use Rattle.states.specs.Blocks.{left_after, sum_left, is_number, is_unbounded, is_widening};
ghost use Rattle.states.specs.declared.known.WordFact.TheVariants.{Alone};
ghost use Rattle.states.specs.declared.span.Leaving.TheVariants.{Widen};

use crate::implication::implies;
use crate::known::WordFact;
use module_format::Fact;

/// What is known of some words together.
#[derive(Clone, Copy)]
pub struct Together {
    /// The least number that a word may be whose plain fact is a number: the greatest word, if there is none.
    pub lo: i32,
    /// The greatest one: the least word, if there is none.
    pub hi: i32,
    /// Whether the plain fact of each word is a number.
    pub are_numbers: bool,
    /// Whether no word is one of a loop.
    pub are_alone: bool,
}

impl Together {
    /// Of no words.
    pub(crate) fn of_none() -> Self
        ensures { result ≡ of_none }
    {
        Together {
            lo: i32::MAX,
            hi: i32::MIN,
            are_numbers: true,
            are_alone: true,
        }
    }

    /// The same of one more, whose plain fact this is.
    fn with_plain(self, fact: Fact) -> Self
        ensures { result ≡ with_plain fact self }
    {
        match fact {
            Fact::Number { lo, hi } => Together {
                lo: self.lo.min(lo),
                hi: self.hi.max(hi),
                ..self
            },
            _ => Together {
                are_numbers: false,
                ..self
            },
        }
    }

    /// The same of one more.
    pub(crate) fn with(self, fact: WordFact) -> Self
        requires { LoopFits fact }
        ensures { result ≡ with_one fact self }
    {
        let all = Together {
            are_alone: self.are_alone && fact.is_alone(),
            ..self
        };
        all.with_plain(fact.plain())
    }

    /// Of some words of each of which this is known.
    pub(crate) fn of_fact(fact: Fact) -> Self
        ensures { result ≡ with_one (Alone fact) of_none }
    {
        Together::of_none().with(WordFact::Alone(fact))
    }

    /// Whether it says what is wanted of each of the words, as it may if all are numbers.
    #[inline(always)]
    pub(crate) fn says(self, wanted: Fact) -> bool
        ensures { result ≡ (self.are_numbers && implies (Number self.lo self.hi) wanted) }
    {
        let said = Fact::Number {
            lo: self.lo,
            hi: self.hi,
        };
        self.are_numbers && implies(said, wanted)
    }

    /// Whether there may be no number among the words.
    pub(crate) fn is_unbounded(self) -> bool
        ensures { result ≡ is_unbounded self }
    {
        self.lo == i32::MAX && self.hi == i32::MIN
    }

    /// The same once each of the words is left so, where that follows.
    pub(crate) fn widened(self, lo: i32, hi: i32) -> Option<Self>
        ensures { result ≡ sum_left (Some self) (Widen lo hi) }
    {
        if self.is_unbounded() {
            return None;
        }
        Some(Together {
            lo: self.lo.min(lo),
            hi: self.hi.max(hi),
            are_numbers: self.are_numbers,
            are_alone: true,
        })
    }

    /// The same of these words and of others.
    pub(crate) fn joined(self, other: Self) -> Self
        ensures { result ≡ joined self other }
    {
        Together {
            lo: self.lo.min(other.lo),
            hi: self.hi.max(other.hi),
            are_numbers: self.are_numbers && other.are_numbers,
            are_alone: self.are_alone && other.are_alone,
        }
    }

    /// The same with `count` more, of which nothing is known.
    pub(crate) fn with_silent(self, count: u32) -> Self
        ensures { result ≡ with_silent count self }
    {
        Together {
            are_numbers: self.are_numbers && count == 0,
            ..self
        }
    }
}

/// Whether a fact is a number.
pub(crate) fn is_number(fact: Fact) -> bool
    ensures { result ≡ is_number fact }
{
    matches!(fact, Fact::Number { .. })
}

/// What is left of what was known of a word.
#[derive(Clone, Copy)]
pub enum Leaving {
    /// This is known instead.
    Become(Fact),
    /// A number may have been replaced by one from `lo` to `hi`; of anything else nothing is left.
    Widen { lo: i32, hi: i32 },
}

/// What is left of a number that may have been replaced by one from `lo` to `hi`.
fn widened(lo: i32, hi: i32, said: Fact) -> Fact
    ensures { result ≡ widened lo hi said }
{
    match said {
        Fact::Number { lo: low, hi: high } => Fact::Number {
            lo: low.min(lo),
            hi: high.max(hi),
        },
        _ => Fact::Unknown,
    }
}

impl Leaving {
    /// What is left of a fact.
    pub(crate) fn left_of(self, said: Fact) -> Fact
        ensures { result ≡ left_of self said }
    {
        match self {
            Leaving::Become(fact) => fact,
            Leaving::Widen { lo, hi } => widened(lo, hi, said),
        }
    }

    /// Whether it only widens what was known.
    pub(crate) fn is_widening(self) -> bool
        ensures { result ≡ is_widening self }
    {
        matches!(self, Leaving::Widen { .. })
    }

    /// What is known together of a block's words once they are left so, where that follows from what was.
    pub(crate) fn sum_left(self, sum: Option<Together>) -> Option<Together>
        ensures { result ≡ sum_left sum self }
    {
        match (self, sum) {
            (Leaving::Become(fact), _) => Some(Together::of_fact(fact)),
            (Leaving::Widen { .. }, None) => None,
            (Leaving::Widen { lo, hi }, Some(sum)) => sum.widened(lo, hi),
        }
    }

    /// What is left where this comes after another one, if one came.
    pub(crate) fn after(self, before: Option<Leaving>) -> Leaving
        ensures { result ≡ left_after before self }
    {
        match (before, self) {
            (Some(Leaving::Become(said)), Leaving::Widen { lo, hi }) => Leaving::Become(widened(
                lo, hi, said,
            )),
            (Some(Leaving::Widen { lo: low, hi: high }), Leaving::Widen { lo, hi }) =>
                Leaving::Widen {
                    lo: low.min(lo),
                    hi: high.max(hi),
                },
            _ => self,
        }
    }
}
