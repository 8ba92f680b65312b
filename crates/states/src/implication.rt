//! When one fact says at least what another says.

ghost use Rattle.std.specs.Prelude.{◌≡◌};
ghost use Rattle.states.specs.Below.{lies_within, step_implies, implies, is_exactly, holds_constant, says};
ghost use Rattle.states.specs.Rows.{LoopFits};

use crate::known::WordFact;
use module_format::{Fact, Step};

fn step_implies(step: Step, other: Step) -> bool
    ensures { result ≡ step_implies step other }
{
    other == Step::Byte || step == Step::Word
}

/// Whether the range from lo to hi lies within the other.
fn lies_within(lo: i32, hi: i32, low: i32, high: i32) -> bool
    ensures { result ≡ lies_within lo hi low high }
{
    low <= lo && hi <= high
}

/// Whether the first fact says at least what the second says.
#[inline(always)]
pub fn implies(fact: Fact, wanted: Fact) -> bool
    ensures { result ≡ implies fact wanted }
{
    match (fact, wanted) {
        (_, Fact::Unknown) | (Fact::ReturnAddress, Fact::ReturnAddress) => true,
        (Fact::Number { lo, hi }, Fact::Number { lo: low, hi: high }) => lies_within(
            lo, hi, low, high,
        ),
        (
            Fact::Pointer {
                region,
                lo,
                hi,
                step,
            },
            Fact::Pointer {
                region: other,
                lo: low,
                hi: high,
                step: stride,
            },
        ) => region.is_same(other) && lies_within(lo, hi, low, high) && step_implies(step, stride),
        (Fact::CodeAddress { offset }, Fact::CodeAddress { offset: other }) => offset == other,
        _ => false,
    }
}

/// Whether it is a number that is exactly this one.
#[inline(always)]
pub(crate) fn is_exactly(fact: Fact, number: i64) -> bool
    ensures { result ≡ is_exactly fact number }
{
    match fact {
        Fact::Number { lo, hi } => i64::from(lo) == number && i64::from(hi) == number,
        _ => false,
    }
}

/// Whether the word has this number, which is no loop's.
pub(crate) fn holds_constant(fact: WordFact, number: i64) -> bool
    ensures { result ≡ holds_constant fact number }
{
    match fact {
        WordFact::Alone(fact) => is_exactly(fact, number),
        _ => false,
    }
}

/// Whether what is known of a word says at least what is wanted. A constant that is the base implies the
/// index of a loop, and one that is the number of turns its count.
pub fn says(fact: WordFact, wanted: WordFact) -> bool
    requires { LoopFits fact }
    ensures { result ≡ says fact wanted }
{
    match (fact, wanted) {
        (_, WordFact::Alone(other)) => implies(fact.by_itself(), other),
        (WordFact::Alone(known), WordFact::Index(wanted)) => is_exactly(
            known,
            i64::from(wanted.base),
        ),
        (WordFact::Alone(known), WordFact::Count(wanted)) => is_exactly(
            known,
            i64::from(wanted.count),
        ),
        (WordFact::Index(known), WordFact::Index(wanted))
        | (WordFact::Count(known), WordFact::Count(wanted)) => known == wanted,
        _ => false,
    }
}
