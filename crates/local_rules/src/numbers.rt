//! What is known of the numbers that instructions give, and where they come from.

ghost use Rattle.std.specs.Prelude.{◌≡◌, ◌+ℤ◌, ◌-ℤ◌, pos};
ghost use Rattle.std.specs.Option.{option_map};
ghost use Rattle.word_arithmetic.specs.Word.{least_word, greatest_word};
ghost use Rattle.word_arithmetic.specs.Range.{ends_of, words_above, words_below};
ghost use Rattle.states.specs.Rows.{LoopFits};
ghost use Rattle.local_rules.specs.WordRules.{source_of, word_as_known, range_of, number_in, constant_in, has_range};
ghost use Rattle.local_rules.specs.WordRules.{numbers_have, fact_of_two, result_fact, unary_result_fact, shift_range};
ghost use Rattle.local_rules.specs.WordRules.{long_results, word_and_constant, test_of, greater_source, equal_source};
ghost use Rattle.local_rules.specs.WordRules.{result_source, constant_source};

use machine_state::{LongOp, MOST_SHIFT, Shift};
use module_format::{Fact, Stack};
use states::{Known, Source, WordFact};
use word_arithmetic::{Binary, Range, Unary};

/// Where what `ldl` gives comes from: a number is that of the word.
fn source_of(word: i32, fact: Fact) -> Source
    ensures { result ≡ source_of word fact }
{
    match fact {
        Fact::Number { .. } => Source::From { word },
        _ => Source::Nowhere,
    }
}

/// What `ldl` gives of a word: its plain fact, and where that is a number, that it comes from there.
pub(crate) fn word_as_known(word: i32, fact: WordFact) -> Known
    requires { LoopFits fact }
    ensures { result ≡ word_as_known word fact }
{
    let plain = fact.plain();
    Known {
        fact: plain,
        source: source_of(word, plain),
    }
}

/// The range of a number; `None` of any other fact.
pub(crate) fn range_of(fact: Fact) -> Option<Range>
    ensures { option_map ends_of result ≡ range_of fact }
{
    match fact {
        Fact::Number { lo, hi } => Range::between(lo, hi),
        _ => None,
    }
}

pub(crate) fn number_in(range: Range) -> Fact
    ensures { result ≡ number_in (ends_of range) }
{
    Fact::Number {
        lo: range.lo,
        hi: range.hi,
    }
}

/// Whether a fact is a number, which has a range.
pub(crate) fn has_range(fact: Fact) -> bool
    ensures { result ≡ has_range fact }
{
    range_of(fact).is_some()
}

/// A test of a number by a bound.
#[derive(Clone, Copy)]
pub(crate) enum Check {
    /// From 0 to below each bound.
    Subscript,
    /// From 1 to each bound.
    Count,
}

impl Check {
    ghost use Rattle.local_rules.specs.WordRules.{test_of_check};

    /// Whether a number passes the test.
    #[tactic(auto, unfolding(crate::specs::WordRules::numbers_have))]
    pub(crate) fn passes(self, number: Fact, bound: Fact) -> bool
        ensures { result ≡ numbers_have (test_of_check self) number bound }
    {
        let (Some(range), Some(bounds)) = (range_of(number), range_of(bound)) else {
            return false;
        };
        match self {
            Check::Subscript => 0 <= range.lo && range.hi < bounds.lo,
            Check::Count => 1 <= range.lo && range.hi <= bounds.lo,
        }
    }
}

/// What is known of the results of an operation of two numbers; `None` where it may fail, or they are no
/// numbers.
#[tactic(auto, unfolding(crate::specs::WordRules::fact_of_two))]
pub(crate) fn result_fact(op: Binary, left: Fact, right: Fact) -> Option<Fact>
    ensures { result ≡ result_fact op left right }
{
    let range = op.range(range_of(left)?, range_of(right)?)?;
    Some(number_in(range))
}

/// The same of one number.
#[tactic(auto, unfolding(crate::specs::WordRules::unary_result_fact))]
pub(crate) fn unary_result_fact(op: Unary, operand: Fact) -> Option<Fact>
    ensures { result ≡ unary_result_fact op operand }
{
    let range = op.range(range_of(operand)?)?;
    Some(number_in(range))
}

/// The most bits by which a word is shifted, as a signed number.
const MOST_COUNT: i32 = MOST_SHIFT as i32;

/// The range of a shift; `None` where a count may be out of range.
#[tactic(auto, unfolding(crate::specs::WordRules::shift_range))]
fn shift_range(op: Shift, range: Range, counts: Range) -> Option<Range>
    ensures { option_map ends_of result ≡ shift_range op (ends_of range) (ends_of counts) }
{
    if counts.lo < 0 || MOST_COUNT < counts.hi {
        return None;
    }
    match op {
        Shift::Left => Some(range.shift_left(counts)),
        Shift::Right => Some(range.shift_right(counts)),
    }
}

/// What is known of the results of a shift; `None` where a count may be out of range, or they are no numbers.
#[tactic(auto, unfolding(crate::specs::WordRules::fact_of_two))]
pub(crate) fn fact_of_shift(op: Shift, left: Fact, counts: Fact) -> Option<Fact>
    ensures { result ≡ fact_of_two (shift_range op) left counts }
{
    let range = shift_range(op, range_of(left)?, range_of(counts)?)?;
    Some(number_in(range))
}

/// What a long operation leaves in the registers: words in A, and in B the carry, the borrow or the high word.
pub(crate) fn long_results(op: LongOp) -> Stack<Known>
    ensures { result ≡ long_results op }
{
    let high = match op {
        LongOp::Sum | LongOp::Difference => Range::truths(),
        LongOp::Product => Range::full(),
    };
    Stack {
        a: Known::of(number_in(Range::full())),
        b: Known::of(number_in(high)),
        c: Known::UNKNOWN,
    }
}

/// The one number that a fact says; `None` where it says several, or is none.
fn constant_in(fact: Fact) -> Option<i32>
    ensures { result ≡ constant_in fact }
{
    range_of(fact)?.is_constant()
}

/// The word that the one is, and the constant that the other is.
fn word_and_constant(one: Known, other: Known) -> Option<(i32, i32)>
    ensures { result ≡ word_and_constant one other }
{
    match one.source {
        Source::From { word } => Some((word, constant_in(other.fact)?)),
        _ => None,
    }
}

/// Whether a word lies in a range, where there is one.
fn test_of(word: i32, range: Option<Range>) -> Source
    ensures { result ≡ test_of word (option_map ends_of range) }
{
    match range {
        Some(range) => Source::Test {
            word,
            lo: range.lo,
            hi: range.hi,
            is_inside: true,
        },
        None => Source::Nowhere,
    }
}

/// The words above a word; `None` where there are none.
fn above(word: i32) -> Option<Range>
    ensures { option_map ends_of result ≡ words_above word }
{
    Range::between(word.checked_add(1)?, i32::MAX)
}

/// The words below a word; `None` where there are none.
fn below(word: i32) -> Option<Range>
    ensures { option_map ends_of result ≡ words_below word }
{
    Range::between(i32::MIN, word.checked_sub(1)?)
}

/// Whether the first is greater shows the range of a word, if the other one is a constant.
#[tactic(auto, unfolding(crate::specs::WordRules::greater_source))]
fn greater_source(left: Known, right: Known) -> Source
    ensures { result ≡ greater_source left right }
{
    if let Some((word, constant)) = word_and_constant(left, right) {
        return test_of(word, above(constant));
    }
    match word_and_constant(right, left) {
        Some((word, constant)) => test_of(word, below(constant)),
        None => Source::Nowhere,
    }
}

/// Whether something is a constant shows whether a word is it; whether it is 0 is the opposite of what it shows.
#[tactic(auto, unfolding(crate::specs::WordRules::equal_source))]
fn equal_source(left: Known, constant: i32) -> Source
    ensures { result ≡ equal_source left constant }
{
    match left.source {
        Source::From { word } => Source::Test {
            word,
            lo: constant,
            hi: constant,
            is_inside: true,
        },
        Source::Test {
            word,
            lo,
            hi,
            is_inside,
        } if constant == 0 => Source::Test {
            word,
            lo,
            hi,
            is_inside: !is_inside,
        },
        _ => Source::Nowhere,
    }
}

/// Where the result of an operation comes from.
pub(crate) fn result_source(op: Binary, left: Known, right: Known) -> Source
    ensures { result ≡ result_source op left right }
{
    match op {
        Binary::Greater => greater_source(left, right),
        _ => Source::Nowhere,
    }
}

/// Where the result of an operation with a constant comes from.
pub(crate) fn constant_source(op: Binary, left: Known, constant: i32) -> Source
    ensures { result ≡ constant_source op left constant }
{
    match op {
        Binary::Equal => equal_source(left, constant),
        _ => Source::Nowhere,
    }
}
