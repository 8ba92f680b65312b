//! What a condition shows of a word.

ghost use Rattle.std.specs.Prelude.{◌≡◌, IfSome, true, false};
ghost use Rattle.std.specs.Option.{option_map};
ghost use Rattle.module_format.specs.Contents.{Contents};
ghost use Rattle.word_arithmetic.specs.Range.{ends_of, left_by};
ghost use Rattle.states.specs.Views.{state_of, CanWrite, BelongsTo};
ghost use Rattle.local_rules.specs.WordRules.{number_in, own_range, same, narrowed_words};
ghost use Rattle.local_rules.specs.Narrowings.{narrowed_by};

use crate::numbers::{number_in, range_of};
use module_format::Fact;
use states::{Source, State, WordFact};
use word_arithmetic::Range;

/// What a condition shows of a word of the frame, which is a number.
#[derive(Clone, Copy)]
pub(crate) struct Narrowing {
    pub word: i32,
    pub if_false: Fact,
    pub if_true: Fact,
}

/// The range of a word that is a number, and none of a loop.
fn own_range(fact: WordFact) -> Option<Range>
    ensures { option_map ends_of result ≡ own_range fact }
{
    match fact {
        WordFact::Alone(fact) => range_of(fact),
        _ => None,
    }
}

/// What is known of a word in a range, after a test of whether it lies in the other one had this result.
fn left_fact(is_inside: bool, holds: bool, range: Range, other: Range) -> Fact
    ensures { result ≡ number_in (left_by (same is_inside holds) (ends_of range) (ends_of other)) }
{
    let is_within = if is_inside { holds } else { !holds };
    number_in(range.left_by(is_within, other))
}

/// What a condition that comes from there shows of a word. `None`: nothing more than is known.
#[tactic(auto, unfolding(crate::specs::WordRules::narrowed_words))]
pub(crate) fn told_by(state: &State, source: Source) -> Option<Narrowing>
    ensures if_false { narrowed_words source false (state_of state.now).frame
        ≡ narrowed_by result false (state_of state.now).frame }
    ensures if_true { narrowed_words source true (state_of state.now).frame
        ≡ narrowed_by result true (state_of state.now).frame }
    ensures room { IfSome result (λ n. CanWrite state.now n.word) }
{
    let Source::Test {
        word,
        lo,
        hi,
        is_inside,
    } = source
    else {
        return None;
    };
    let own = own_range(state.fact_at(word))?;
    let other = Range::between(lo, hi)?;
    Some(Narrowing {
        word,
        if_false: left_fact(is_inside, false, own, other),
        if_true: left_fact(is_inside, true, own, other),
    })
}

/// The word is what the condition shows of it when it has this result.
pub(crate) fn narrow(state: &mut State, narrowing: Option<Narrowing>, holds: bool)
    requires { IfSome narrowing (λ n. CanWrite state.old n.word) }
    ensures state { state_of state.new
        ≡ record (state_of state.old) { frame = narrowed_by narrowing holds (state_of state.old).frame } }
    ensures belongs { (m : Contents) → BelongsTo m state.old → BelongsTo m state.new }
    ensures room { IfSome narrowing (λ n. CanWrite state.new n.word) }
{
    if let Some(
        Narrowing {
            word,
            if_false,
            if_true,
        },
    ) = narrowing
    {
        state.narrow(word, if holds { if_true } else { if_false });
    }
}
