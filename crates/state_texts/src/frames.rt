//! What is known of the words of a frame, in words.

ghost use Rattle.std.specs.Prelude.{◌≡◌, negsuc, ◌≤ℤ◌, ◌++◌, OnOk, Some, string_bytes};
ghost use Rattle.fact_texts.specs.Texts.{is_one};
ghost use Rattle.fact_texts.specs.FactTexts.{loop_text};
ghost use Rattle.states.specs.State.{is_silent};
ghost use Rattle.states.specs.Views.{state_of};
ghost use Rattle.states.specs.Below.{is_same_loop};
ghost use Rattle.state_texts.specs.FrameTexts.{frame_text, is_same_fact, is_same_range, is_same_step, is_same_word};
ghost use Rattle.state_texts.specs.FrameTexts.{parted, run_after, run_text, runs_text, size_between, turns_text};
ghost use Rattle.state_texts.specs.FrameTexts.{is_same_place, run_line, word_text, words_after, words_text};

use certificate::Module;
use fact_texts::{FactText, LoopText, RangeText};
use module_format::{Fact, Region, Step};
use states::{Loop, State, WordFact};
use std::alloc::AllocError;
use std::fmt;

/// Whether pointers have the same step.
fn is_same_step(step: Step, other: Step) -> bool
    ensures { result ≡ is_same_step step other }
{
    match (step, other) {
        (Step::Byte, Step::Byte) | (Step::Word, Step::Word) => true,
        _ => false,
    }
}

/// Whether two ranges are the same.
fn is_same_range(lo: i32, hi: i32, low: i32, high: i32) -> bool
    ensures { result ≡ is_same_range lo hi low high }
{
    is_one(lo, low) && is_one(hi, high)
}

/// Whether pointers to this range lead to the same region.
fn is_same_place(region: Region, other: Region, has_range: bool) -> bool
    ensures { result ≡ is_same_place region other has_range }
{
    region.is_same(other) && has_range
}

/// Whether two facts are the same.
fn is_same_fact(fact: Fact, other: Fact) -> bool
    ensures { result ≡ is_same_fact fact other }
{
    match (fact, other) {
        (Fact::Unknown, Fact::Unknown) | (Fact::ReturnAddress, Fact::ReturnAddress) => true,
        (Fact::Number { lo, hi }, Fact::Number { lo: low, hi: high }) => is_same_range(
            lo, hi, low, high,
        ),
        (
            Fact::Pointer {
                region,
                lo,
                hi,
                step,
            },
            Fact::Pointer {
                region: other,
                lo: low,
                hi: high,
                step: stride,
            },
        ) => {
            let has_range = is_same_range(lo, hi, low, high);
            is_same_place(region, other, has_range) && is_same_step(step, stride)
        }
        (Fact::CodeAddress { offset }, Fact::CodeAddress { offset: other }) => offset == other,
        _ => false,
    }
}

/// Whether two numbers are one.
fn is_one(number: i32, other: i32) -> bool
    ensures { result ≡ is_one number other }
{
    number <= other && other <= number
}

/// Whether two loops are the same.
fn is_same_loop(turning: Loop, other: Loop) -> bool
    ensures { result ≡ is_same_loop turning other }
{
    is_one(turning.base, other.base)
        && turning.count == other.count
        && turning.weight == other.weight
}

/// Whether the same is known of two words.
fn is_same_word(fact: WordFact, other: WordFact) -> bool
    ensures { result ≡ is_same_word fact other }
{
    match (fact, other) {
        (WordFact::Alone(fact), WordFact::Alone(other)) => is_same_fact(fact, other),
        (WordFact::Index(turning), WordFact::Index(other)) => is_same_loop(turning, other),
        (WordFact::Count(turning), WordFact::Count(other)) => is_same_loop(turning, other),
        _ => false,
    }
}

/// What is known of a word of the frame.
#[derive(Clone, Copy)]
pub struct WordText(pub WordFact);

impl fmt::Display for WordText {
    ghost output = { λ word. Some (word_text word.0) };

    fn fmt<W: fmt::Write>(&self, f: &mut fmt::Formatter<W>) -> fmt::Result {
        match self.0 {
            WordFact::Alone(fact) => write!(f, "{}", FactText(fact)),
            WordFact::Index(turning) => write!(f, "index of a {}", turns(turning)),
            WordFact::Count(turning) => write!(f, "count of a {}", turns(turning)),
        }
    }
}

/// A loop, as it is written.
fn turns(turning: Loop) -> LoopText
    ensures { loop_text result.base result.count result.weight ≡ turns_text turning }
{
    LoopText {
        base: turning.base,
        count: turning.count,
        weight: turning.weight,
    }
}

/// Whether nothing is known of a word.
fn is_silent(fact: WordFact) -> bool
    ensures { result ≡ is_silent fact }
{
    matches!(fact, WordFact::Alone(Fact::Unknown))
}

/// Words from the first on of which the same is known.
#[derive(Clone, Copy)]
pub(crate) struct Run {
    pub first: i64,
    pub fact: WordFact,
}

/// Appends the words up to the one before `end`, and what is known of each.
#[tactic(auto, unfolding(crate::specs::FrameTexts::words_text))]
fn push_words(text: &mut String, run: Run, end: i64) -> Result<(), AllocError>
    requires { negsuc 16384 ≤ℤ end }
    ensures { OnOk result (string_bytes text.new ≡ string_bytes text.old ++ words_text run end) }
{
    let words = RangeText {
        lo: run.first,
        hi: end - 1,
    };
    let fact = WordText(run.fact);
    write!(text, "word {words}: {fact}")
}

/// Appends the same, and a line feed.
#[tactic(auto, unfolding(crate::specs::FrameTexts::words_after))]
fn push_words_after(text: &mut String, run: Run, end: i64) -> Result<(), AllocError>
    requires { negsuc 16384 ≤ℤ end }
    ensures { OnOk result (string_bytes text.new ≡ string_bytes text.old ++ words_after run end) }
{
    push_words(text, run, end)?;
    text.push_str("\n")?;
    Ok(())
}

/// Appends the line of a run of words up to the one before `end`.
#[tactic(auto, unfolding(crate::specs::FrameTexts::run_line))]
fn push_run_line(text: &mut String, run: Run, end: i64) -> Result<(), AllocError>
    requires { negsuc 16384 ≤ℤ end }
    ensures { OnOk result (string_bytes text.new ≡ string_bytes text.old ++ run_line run end) }
{
    text.push_str("       ")?;
    push_words_after(text, run, end)?;
    Ok(())
}

/// Appends the line of a run of words up to the one before `end`; none where nothing is known.
fn push_run(text: &mut String, run: Run, end: i64) -> Result<(), AllocError>
    requires { negsuc 16384 ≤ℤ end }
    ensures { OnOk result (string_bytes text.new ≡ string_bytes text.old ++ run_text run end) }
{
    if is_silent(run.fact) {
        return write!(text, "");
    }
    push_run_line(text, run, end)
}

/// Appends the line of a run that ends before a word of which this is known.
fn push_parted(text: &mut String, run: Run, at: i64, next: WordFact) -> Result<(), AllocError>
    requires { negsuc 16384 ≤ℤ at }
    ensures { OnOk result (string_bytes text.new ≡ string_bytes text.old ++ parted run at next) }
{
    if is_same_word(run.fact, next) {
        return write!(text, "");
    }
    push_run(text, run, at)
}

/// The run of a word of which this is known.
fn run_after(run: Run, at: i64, next: WordFact) -> Run
    ensures { result ≡ run_after run at next }
{
    if is_same_word(run.fact, next) {
        return run;
    }
    Run {
        first: at,
        fact: next,
    }
}

/// Appends the runs of the words from `lo` up to `hi` (not included).
fn push_runs(text: &mut String, state: &State, lo: i64, hi: i64) -> Result<(), AllocError>
    requires low { negsuc 16383 ≤ℤ lo }
    requires ordered { lo ≤ℤ hi }
    ensures { OnOk result (string_bytes text.new
        ≡ string_bytes text.old ++ runs_text (state_of state.now).frame lo (size_between lo hi)) }
{
    let mut run = Run {
        first: lo,
        fact: WordFact::Alone(Fact::Unknown),
    };
    for word in lo..hi {
        let next = state.fact_of(word);
        push_parted(text, run, word, next)?;
        run = run_after(run, word, next);
    }
    push_run(text, run, hi)?;
    Ok(())
}

/// Appends what is known of the words of a state's frame, a line for each run of words of which the same is known.
pub fn push_frame(text: &mut String, module: &Module, state: &State) -> Result<(), AllocError>
    ensures { OnOk result (string_bytes text.new
        ≡ string_bytes text.old ++ frame_text «module».now (state_of state.now)) }
{
    let _kept = module.tables();
    let Some(context) = module.context(state.context) else {
        return write!(text, "");
    };
    if context.lo <= context.hi {
        return push_runs(text, state, context.lo, context.hi);
    }
    write!(text, "")
}
