//! What is known where a process comes to a label.

ghost use Rattle.std.specs.Prelude.{◌≡◌, negsuc, pos, ◌≤ℤ◌};
ghost use Rattle.std.specs.Option.{option_map};
ghost use Rattle.word_arithmetic.specs.Range.{ends_of};
ghost use Rattle.states.specs.Rows.{LoopFits};
ghost use Rattle.states.specs.State.{is_parted, is_same_number};
ghost use Rattle.states.specs.Views.{state_of};
ghost use Rattle.explanation_parts.specs.Ways.{is_hidden, hidden_fact, range_of, number_in, left_fact, tested_fact};
ghost use Rattle.explanation_parts.specs.Ways.{seen_in, seen_of, seen_of_a, is_settled};

use module_format::Fact;
use states::{Known, Mode, Source, State, WordFact};
use word_arithmetic::Range;

/// How a process comes to a label.
#[derive(Clone, Copy)]
pub enum Way {
    /// It falls into it.
    Falls,
    /// Another one may run before: the registers and the scheduling words are unknown.
    Jumps,
    /// What A has is 0.
    Tests,
    /// An alternation ends.
    Selects,
}

/// Whether a word is one of the three below a depth.
fn is_hidden(depth: i32, word: i64) -> bool
    ensures { result ≡ is_hidden depth word }
{
    i64::from(depth) - 3 <= word && word < i64::from(depth)
}

/// Whether the other word of a loop is one of the three below a depth.
fn is_parted(depth: i32, word: i64, fact: WordFact) -> bool
    requires { (negsuc 8589934591 ≤ℤ word) × (word ≤ℤ pos 8589934592) }
    ensures { result ≡ is_parted (is_hidden depth) word fact }
{
    match fact {
        WordFact::Alone(_) => false,
        WordFact::Index(_) => is_hidden(depth, word + 1),
        WordFact::Count(_) => is_hidden(depth, word - 1),
    }
}

/// What is known of a word once the scheduling words are unknown.
fn hidden_fact(depth: i32, word: i64, fact: WordFact) -> WordFact
    requires word { (negsuc 8589934591 ≤ℤ word) × (word ≤ℤ pos 8589934592) }
    requires fits { LoopFits fact }
    ensures value { result ≡ hidden_fact depth word fact }
    ensures fits { LoopFits result }
{
    if is_hidden(depth, word) {
        return WordFact::Alone(Fact::Unknown);
    }
    if is_parted(depth, word, fact) {
        return WordFact::Alone(fact.by_itself());
    }
    fact
}

/// The range of a number that is in no loop.
fn range_of(fact: WordFact) -> Option<Range>
    ensures { option_map ends_of result ≡ range_of fact }
{
    match fact {
        WordFact::Alone(Fact::Number { lo, hi }) => Range::between(lo, hi),
        _ => None,
    }
}

/// The number in a range.
fn number_in(range: Range) -> WordFact
    ensures value { result ≡ number_in (ends_of range) }
    ensures fits { LoopFits result }
{
    WordFact::Alone(Fact::Number {
        lo: range.lo,
        hi: range.hi,
    })
}

/// What is left of what is known of a word that is in a range, or outside it.
#[tactic(auto, unfolding(crate::specs::Ways::left_fact))]
fn left_fact(is_inside: bool, lo: i32, hi: i32, fact: WordFact) -> WordFact
    requires { LoopFits fact }
    ensures value { result ≡ left_fact is_inside lo hi fact }
    ensures fits { LoopFits result }
{
    let Some(own) = range_of(fact) else {
        return fact;
    };
    let Some(other) = Range::between(lo, hi) else {
        return fact;
    };
    number_in(own.left_by(is_inside, other))
}

/// Whether two numbers are one.
fn is_word(word: i64, other: i64) -> bool
    ensures { result ≡ is_same_number word other }
{
    word <= other && other <= word
}

/// What is known of a word where what comes from there is 0.
fn tested_fact(source: Source, word: i64, fact: WordFact) -> WordFact
    requires { LoopFits fact }
    ensures value { result ≡ tested_fact source word fact }
    ensures fits { LoopFits result }
{
    let Source::Test {
        word: tested,
        lo,
        hi,
        is_inside,
    } = source
    else {
        return fact;
    };
    if is_word(word, i64::from(tested)) {
        return left_fact(!is_inside, lo, hi, fact);
    }
    fact
}

/// What is known of a word.
pub(crate) fn seen_fact(state: &State, way: Way, word: i64) -> WordFact
    requires { (negsuc 8589934591 ≤ℤ word) × (word ≤ℤ pos 8589934592) }
    ensures value { result ≡ seen_in way (state_of state.now) word }
    ensures fits { LoopFits result }
{
    let fact = state.fact_of(word);
    match way {
        Way::Falls => fact,
        Way::Jumps => hidden_fact(state.depth, word, fact),
        Way::Tests => tested_fact(state.stack.a.source, word, fact),
        Way::Selects => fact,
    }
}

/// What is known of a register.
pub(crate) fn seen_of(way: Way, known: Known) -> Fact
    ensures { result ≡ seen_of way known }
{
    match way {
        Way::Jumps => Fact::Unknown,
        _ => known.fact,
    }
}

/// What is known of A.
pub(crate) fn seen_of_a(way: Way, known: Known) -> Fact
    ensures { result ≡ seen_of_a way known }
{
    match way {
        Way::Jumps => Fact::Unknown,
        Way::Tests => Fact::Number { lo: 0, hi: 0 },
        _ => known.fact,
    }
}

/// Whether a process is in the middle of nothing.
pub(crate) fn is_settled(way: Way, mode: Mode) -> bool
    ensures { result ≡ is_settled way mode }
{
    match way {
        Way::Selects => true,
        _ => matches!(mode, Mode::Plain),
    }
}
