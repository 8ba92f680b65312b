//! What rows say: what a scope knows of words.

ghost use Rattle.std.specs.Prelude.{◌≡◌, ◌++◌, ◌∷◌, [], IfOk, MatchResult, Err, option_map, option_to_list};
ghost use Rattle.word_arithmetic.specs.Range.{ends_of};
ghost use Rattle.scalar_ranges.specs.Entries.{entry_at};
ghost use Rattle.scalar_ranges.specs.Scopes.{entries_of, entry_of, meaning_of};
ghost use Rattle.line_pieces.specs.HomeViews.{home_seen, homes_seen};
ghost use Rattle.line_pieces.specs.Homes.{count_in, is_in, facts_at, facts_here, facts_of};
ghost use Rattle.line_pieces.specs.Declarations.{facts_in};
ghost use Rattle.line_pieces.specs.FrameViews.{frame_seen};

use crate::declaring::words_for;
use crate::frame::Frame;
use crate::home::Home;
use code_pieces::{RowEntry, WordFact};
use module_builder::GenFault;
use scalar_ranges::{Entry, Meaning, Scope};
use std::alloc::{AllocError, Global};
use word_arithmetic::Range;

/// How many turns a loop has at most.
const GREATEST_TURNS: u32 = u32::MAX;

/// How many numbers a range has, as far as a loop has turns.
fn count_in(range: Range) -> u32
    ensures { result ≡ count_in (ends_of range) }
{
    let count = i64::from(range.hi) - i64::from(range.lo) + 1;
    count.unsigned_abs().min(u64::from(GREATEST_TURNS)) as u32
}

/// Some words have numbers in this range.
pub fn is_in(word: u32, span: u32, range: Range) -> RowEntry
    ensures { result ≡ is_in word span (ends_of range) }
{
    RowEntry {
        word,
        span,
        fact: WordFact::Between {
            lo: range.lo,
            hi: range.hi,
        },
    }
}

/// What is known of the words of a name that is there and means this, if it has words.
fn fact_at(home: &Home, meaning: Meaning) -> Option<RowEntry>
    ensures { option_to_list result ≡ facts_at (home_seen home.now) (meaning_of meaning) }
{
    match (home, meaning) {
        (Home::Word(word), Meaning::Scalar { range, .. }) => Some(is_in(*word, 1, range)),
        (
            Home::Word(word),
            Meaning::Array {
                value_type,
                size: Some(size),
                ..
            },
        ) => {
            let span = words_for(value_type, size);
            Some(is_in(*word, span, Range::full()))
        }
        (Home::Block { word, head }, Meaning::Scalar { range, .. }) => Some(RowEntry {
            word: *word,
            span: 2,
            fact: WordFact::Turning {
                head: *head,
                base: range.lo,
                count: count_in(range),
            },
        }),
        _ => None,
    }
}

/// What is known of the words of a name that is there, if it is in the scope and has words.
fn fact_here(home: &Home, declared: Option<Entry>) -> Option<RowEntry>
    ensures { option_to_list result ≡ facts_here (home_seen home.now) (option_map entry_of declared.entry) }
{
    match declared {
        Some(declared) => fact_at(home, declared.meaning),
        None => None,
    }
}

/// What a scope knows of the words of the name with this number, whose home this is. A name without words is not looked
/// up.
fn fact_of(scope: &Scope, number: usize, home: &Home) -> Option<RowEntry>
    ensures { option_to_list result ≡ facts_here (home_seen home.now) (entry_at number (entries_of scope.now)) }
{
    match home {
        Home::Word(_) | Home::Block { .. } => fact_here(home, scope.entry(number)),
        Home::Nowhere | Home::Link(_) | Home::Table(_) | Home::Passed(_) => None,
    }
}

/// One entry more, if there is one.
pub(crate) fn push_any<T: Drop>(entries: &mut Vec<T>, entry: Option<T>) -> Result<(), AllocError>
    ensures { IfOk result (λ _. entries.new.items ≡ entries.old.items ++ option_to_list entry) }
{
    if let Some(entry) = entry {
        entries.push(entry)?;
    }
    Ok(())
}

/// One item more, if it was made.
pub(crate) fn push_made<T: Drop>(
    items: &mut Vec<T>,
    made: Result<T, GenFault>,
) -> Result<(), GenFault>
    ensures { MatchResult made (λ item. IfOk result (λ _. items.new.items ≡ items.old.items ++ item ∷ []))
        (λ e. result ≡ Err e) }
{
    items.push(made?)?;
    Ok(())
}

/// What a scope knows of words, those of the outermost names first.
fn facts_of(alloc: Global, scope: &Scope, homes: &[Home]) -> Result<Vec<RowEntry>, AllocError>
    ensures { IfOk result (λ entries. entries.items ≡ facts_of (homes_seen homes.now) (entries_of scope.now)) }
{
    let mut entries = Vec::new(alloc);
    for (number, home) in homes.iter().enumerate() {
        push_any(&mut entries, fact_of(scope, number, home))?;
    }
    Ok(entries)
}

/// What a row says: what is known of words outside, and what a scope knows.
pub fn facts_in(alloc: Global, scope: &Scope, frame: &Frame) -> Result<Vec<RowEntry>, AllocError>
    ensures { IfOk result (λ entries. entries.items ≡ facts_in (frame_seen frame.now) (entries_of scope.now)) }
{
    let own = facts_of(alloc, scope, &frame.homes)?;
    let mut entries = Vec::from_slice(alloc, &frame.outer)?;
    entries.extend_from_slice(&own)?;
    Ok(entries)
}
