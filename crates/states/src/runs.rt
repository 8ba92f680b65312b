//! Words one after the other of which a row says the same.

ghost use Rattle.std.specs.Prelude.{ℤ, ◌<ℤ◌, IfSome};
ghost use Rattle.states.specs.Rows.{AreApart};
ghost use Rattle.states.specs.Runs.{IsRun};
ghost use Rattle.states.specs.State.{entry_fact};

use crate::implied::{from_word, place_near};
use crate::row::{end_of, loop_of, start_of, without_ended};
use module_format::{Entry, Fact};

/// Words from one on of each of which this is known by itself.
#[derive(Clone, Copy)]
pub(crate) struct Run {
    /// The first word after them.
    pub end: i64,
    pub fact: Fact,
    /// A place of the row that is near to theirs.
    pub near: usize,
}

/// The words from a word up to `end` (not included), or some of the first of them, of which a row says the same by
/// itself. Its first entry is none that ends before them. `None`: the first is one of a loop.
fn first_run(row: &[Entry], word: i64, end: i64) -> Option<Run>
    requires apart { AreApart row.now }
    requires some { word <ℤ end }
    ensures { IfSome result (IsRun (entry_fact row.now) word end) }
{
    let Some((entry, _later)) = row.split_first() else {
        return Some(Run {
            end,
            fact: Fact::Unknown,
            near: 0,
        });
    };
    if word < start_of(entry) {
        return Some(Run {
            end: end.min(start_of(entry)),
            fact: Fact::Unknown,
            near: 0,
        });
    }
    if end_of(entry) <= word || loop_of(entry.fact).is_some() {
        return None;
    }
    Some(Run {
        end: end.min(end_of(entry)),
        fact: entry.fact,
        near: 0,
    })
}

/// The words from a word up to `end` (not included), or some of the first of them, of which a row says the same by
/// itself. `None`: the first is one of a loop. It takes a logarithm of steps.
pub(crate) fn run_from(row: &[Entry], word: i64, end: i64) -> Option<Run>
    requires apart { AreApart row.now }
    requires some { word <ℤ end }
    ensures { IfSome result (IsRun (entry_fact row.now) word end) }
{
    let near = from_word(row, word);
    let rest = without_ended(near, word);
    let run = first_run(rest, word, end)?;
    Some(run)
}

/// The same, sought from a place of the row that may be near.
pub(crate) fn run_near(row: &[Entry], near: usize, word: i64, end: i64) -> Option<Run>
    requires apart { AreApart row.now }
    requires some { word <ℤ end }
    ensures { IfSome result (IsRun (entry_fact row.now) word end) }
{
    let place = place_near(row, near, word);
    let rest = without_ended(&row[place..], word);
    let run = first_run(rest, word, end)?;
    Some(Run {
        end: run.end,
        fact: run.fact,
        near: place,
    })
}
