//! What is asked of words, and the first of some words of which it is not so.

ghost use Rattle.std.specs.Prelude.{◌≡◌, pos, ◌+ℤ◌};
ghost use Rattle.states.specs.Rows.{LoopFits};
ghost use Rattle.found_parts.specs.Firsts.{first_of};
ghost use Rattle.found_parts.specs.Asked.{is_number, holds, failing, first_failing, failing_within};

use certificate::Module;
use module_format::{Fact, Interval};
use states::{State, WordFact};

/// What is asked of a word.
#[derive(Clone, Copy)]
pub(crate) enum Asked<'s, 'm, 't> {
    /// It is a number.
    Number {
        state: &'s State<'t>,
    },
    /// A context may write it.
    Written {
        module: &'s Module<'m>,
        context: u32,
    },
    /// A context may read it.
    Read {
        module: &'s Module<'m>,
        context: u32,
    },
}

/// Whether what is known of a word is that it is a number.
fn is_number(fact: WordFact) -> bool
    requires { LoopFits fact }
    ensures { result ≡ is_number fact }
{
    matches!(fact.plain(), Fact::Number { .. })
}

impl Asked<'_, '_, '_> {
    ghost use Rattle.std.specs.Prelude.{◌≡◌};
    ghost use Rattle.found_parts.specs.Asked.{holds};

    /// Whether it is so.
    fn holds(&self, word: i64) -> bool
        ensures { result ≡ holds self.now word }
    {
        match *self {
            Asked::Number { state } => is_number(state.fact_of(word)),
            Asked::Written { module, context } => module.may_write_word(context, word),
            Asked::Read { module, context } => module.may_read_word(context, word),
        }
    }
}

/// The word, if it is not so.
fn failing(asked: &Asked, word: i64) -> Option<i64>
    ensures { result ≡ failing (holds asked.now) word }
{
    if asked.holds(word) { None } else { Some(word) }
}

/// The word this far after the first one, if it is not so.
fn failing_after(asked: &Asked, first: i32, number: u32) -> Option<i64>
    ensures { result ≡ failing (holds asked.now) (first +ℤ pos number) }
{
    failing(asked, i64::from(first) + i64::from(number))
}

/// The first of `count` words of which it is not so.
pub(crate) fn first_failing(asked: &Asked, first: i32, count: u32) -> Option<i64>
    ensures { result ≡ first_failing (holds asked.now) first count }
{
    let mut found = None;
    for number in 0..count {
        found = found.or(failing_after(asked, first, number));
    }
    found
}

/// The first word of an interval of which it is not so.
fn failing_within(asked: &Asked, interval: &Interval) -> Option<i64>
    ensures { result ≡ failing_within (holds asked.now) interval.now }
{
    first_failing(asked, interval.lo, interval.hi.abs_diff(interval.lo))
}

/// The first word of some intervals of which it is not so.
pub(crate) fn first_within(asked: &Asked, intervals: &[Interval]) -> Option<i64>
    ensures { result ≡ first_of (failing_within (holds asked.now)) intervals.now }
{
    for interval in intervals {
        let word = failing_within(asked, interval);
        if word.is_some() {
            return word;
        }
    }
    None
}
