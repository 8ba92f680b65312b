//! Neighbouring words that a context may use.

ghost use Rattle.std.specs.Prelude.{◌≡◌, Some, not};
ghost use Rattle.certificate.specs.Rights.{has_word};
ghost use Rattle.certificate.specs.Starting.{is_scheduling_word};
ghost use Rattle.certificate.specs.Words.{all_words};

use crate::joining::have_words;
use crate::modules::Module;
use module_format::{Context, Interval};

/// Whether `count` words from the first one on are those of a context's frame.
fn frame_has(frame: Context, first: i32, count: u32) -> bool
    ensures { result ≡ all_words (has_word (Some frame)) first count }
{
    if count == 0 {
        return true;
    }
    let first = i64::from(first);
    frame.lo <= first && first + i64::from(count) <= frame.hi
}

/// Whether none of `count` words from the first one on is one that scheduling takes below a workspace.
pub(crate) fn leaves_scheduling(workspace: i32, first: i32, count: u32) -> bool
    ensures { result ≡ all_words (λ k. not (is_scheduling_word workspace k)) first count }
{
    if count == 0 {
        return true;
    }
    let first = i64::from(first);
    let workspace = i64::from(workspace);
    workspace <= first || first + i64::from(count) + 3 <= workspace
}

impl Module<'_> {
    ghost use Rattle.std.specs.Prelude.{◌≡◌};
    ghost use Rattle.std.specs.List.{list_all};
    ghost use Rattle.module_format.specs.Contexts.{context_at};
    ghost use Rattle.certificate.specs.Rights.{has_word, may_write_word, may_read_word};
    ghost use Rattle.certificate.specs.Words.{all_words, all_within};

    /// Whether `count` words from the first one on are those of a context's frame.
    fn has_words(&self, context: u32, first: i32, count: u32) -> bool
        ensures { result ≡ all_words (has_word (context_at self.now context)) first count }
    {
        match self.context(context) {
            Some(frame) => frame_has(frame, first, count),
            None => count == 0,
        }
    }

    /// Whether a context may write `count` words from the first one on. It takes time logarithmic in the intervals of
    /// the row.
    pub(crate) fn may_write_words(&self, context: u32, first: i32, count: u32) -> bool
        ensures { result ≡ all_words (may_write_word self.now context) first count }
    {
        if !self.has_words(context, first, count) {
            return false;
        }
        match self.own_words(context) {
            Some(own) => have_words(&own.writes, first, count),
            None => true,
        }
    }

    /// Whether a context may read `count` words from the first one on. It takes time logarithmic in the intervals of
    /// the row.
    pub(crate) fn may_read_words(&self, context: u32, first: i32, count: u32) -> bool
        ensures { result ≡ all_words (may_read_word self.now context) first count }
    {
        if !self.has_words(context, first, count) {
            return false;
        }
        match self.own_words(context) {
            Some(own) => have_words(&own.reads, first, count),
            None => true,
        }
    }

    /// Whether a context may write the words of an interval.
    fn writes_interval(&self, context: u32, interval: &Interval) -> bool
        ensures { result ≡ all_within (may_write_word self.now context) interval.now }
    {
        self.may_write_words(context, interval.lo, interval.hi.abs_diff(interval.lo))
    }

    /// Whether a context may read the words of an interval.
    fn reads_interval(&self, context: u32, interval: &Interval) -> bool
        ensures { result ≡ all_within (may_read_word self.now context) interval.now }
    {
        self.may_read_words(context, interval.lo, interval.hi.abs_diff(interval.lo))
    }

    /// Whether a context may write the words of all these intervals.
    pub(crate) fn writes_intervals(&self, context: u32, intervals: &[Interval]) -> bool
        ensures { result ≡ list_all (all_within (may_write_word self.now context)) intervals.now }
    {
        intervals
            .iter()
            .all(|interval| self.writes_interval(context, interval))
    }

    /// Whether a context may read the words of all these intervals.
    pub(crate) fn reads_intervals(&self, context: u32, intervals: &[Interval]) -> bool
        ensures { result ≡ list_all (all_within (may_read_word self.now context)) intervals.now }
    {
        intervals
            .iter()
            .all(|interval| self.reads_interval(context, interval))
    }
}
