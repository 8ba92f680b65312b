//! Branches of PAR rows.
#![tactic(auto, unfolding(crate::proofs::Opening::reading_branches))]

ghost use Rattle.std.specs.Prelude.{◌≡◌, ⊤, ◌++◌, [], ◌∷◌, ℕ, ℤ, List, None, map};
ghost use Rattle.std.specs.List.{list_any};
ghost use Rattle.module_format.specs.Contents.{Branch, branch_of};
ghost use Rattle.module_format.specs.declared.rows.Interval.{Interval};
ghost use Rattle.module_format.specs.Meaning.{walk, listed_as};
ghost use Rattle.module_format.specs.Order.{InOrder, least_word};
ghost use Rattle.module_format.specs.Pars.{Before, IntervalKeeps, behind_interval, behind_number, behind_end};
ghost use Rattle.module_format.specs.Pars.{behind_branch, entries_of, first_key, intervals_meet};
ghost use Rattle.module_format.specs.Reading.{list_at};
ghost use Rattle.module_format.specs.ReadingPars.{interval_end_at, frame_words_at, read_words_at, parameter_number_at};
ghost use Rattle.module_format.specs.ReadingPars.{end_row_at, branch_entry_at, branch_counts_at, branch_row_at};
ghost use Rattle.module_format.specs.Taking.{Takes, MayRunOut};

use crate::fault::FormatFaultKind;
use crate::listed::Written;
use crate::reading::cursor::Cursor;
use crate::reading::facts::{LEAST_WORD, read_first_word};
use crate::reading::list::{Reader, fill, read_list};
use crate::reading::taken::Taken;
use crate::rows::{BranchCounts, BranchRow, EndKey, EndRow, Interval};
use smallvec::SmallVec;

/// The end of an interval, which is not empty.
fn read_interval_end(lo: i32, from: &mut Cursor<'_>) -> i32
    ensures { Takes (λ size. interval_end_at size lo) from.old result from.new }
{
    let at = from.place();
    let hi = from.i32();
    from.check(at, lo < hi, FormatFaultKind::Range);
    hi
}

/// Frame words from `low` on.
pub(crate) fn read_words(low: i64, from: &mut Cursor<'_>) -> Interval
    ensures { Takes (λ size. frame_words_at size low) from.old result from.new }
{
    let lo = read_first_word(low, from);
    let hi = read_interval_end(lo, from);
    Interval { lo, hi }
}

/// Whether an interval has a word of one of the others, which rise.
pub fn meets_any(interval: &Interval, others: &[Interval]) -> bool
    requires { InOrder IntervalKeeps behind_interval least_word others.now }
    ensures { result ≡ list_any (intervals_meet interval.now) others.now }
{
    let first = others.partition_point(|other| other.hi <= interval.lo);
    match others.get(first) {
        Some(other) => other.lo < interval.hi,
        None => false,
    }
}

/// `count` intervals that are written.
fn read_writes(count: u16, from: &mut Cursor<'_>) -> SmallVec<Interval, 2>
    ensures takes { Takes (λ size. list_at (frame_words_at size) behind_interval count least_word)
        from.old result.items from.new }
    ensures rise { from.new.failure ≡ None → InOrder IntervalKeeps behind_interval least_word result.items }
{
    read_list(&(), LEAST_WORD, u32::from(count), from)
}

/// `count` intervals that are read.
fn read_reads(count: u16, intervals: &[Interval], from: &mut Cursor<'_>) -> SmallVec<Interval, 2>
    requires { from.old.failure ≡ None → InOrder IntervalKeeps behind_interval least_word intervals.now }
    ensures { Takes (λ size. list_at (read_words_at size intervals.now) behind_interval count least_word)
        from.old result.items from.new }
{
    if from.has_failed() {
        return SmallVec::new(from.alloc());
    }
    read_list(&Written { intervals }, LEAST_WORD, u32::from(count), from)
}

/// `count` numbers of parameters.
#[inline(always)]
fn read_parameter_numbers(count: u16, from: &mut Cursor<'_>) -> SmallVec<u16, 4>
    ensures { Takes (λ size. list_at (parameter_number_at size) behind_number count 0) from.old result.items from.new }
{
    read_list(&(), 0, u32::from(count), from)
}

/// `count` ends.
fn read_ends(count: u16, from: &mut Cursor<'_>) -> Vec<EndRow>
    ensures { Takes (λ size. list_at (end_row_at size) behind_end count first_key) from.old result.items from.new }
{
    read_list(&(), EndKey::first(), u32::from(count), from)
}

/// How many intervals, parameters and ends a branch has.
fn read_branch_counts(from: &mut Cursor<'_>) -> BranchCounts
    ensures { Takes branch_counts_at from.old result from.new }
{
    BranchCounts {
        writes: from.u16(),
        reads: from.u16(),
        written_parameters: from.u16(),
        read_parameters: from.u16(),
        ends: from.u16(),
    }
}

/// Branches in code of a given length, the first of them after an entry at `low`. None begins at an entry that was
/// taken.
#[derive(Drop)]
pub(crate) struct Branches {
    pub code_len: usize,
    pub low: u32,
    pub taken: Taken,
}

impl Branches {
    /// The entry of the next branch.
    fn entry(&self, from: &mut Cursor<'_>) -> u32
        ensures { Takes (λ size. branch_entry_at size self.now.code_len
            (record { low = self.now.low; entries = self.now.taken.entries.items })) from.old result from.new }
    {
        let at = from.place();
        let entry = from.in_code(self.code_len);
        from.check(at, self.low < entry, FormatFaultKind::Order);
        from.check(at, !self.taken.contains(entry), FormatFaultKind::Range);
        entry
    }
}

impl Reader for Branches {
    type Item = BranchRow;

    ghost walk = { walk (λ r. r.code_len) (λ r. record { low = r.low; entries = r.taken.entries.items })
        (listed_as branch_of (λ code_len size. branch_row_at size code_len) behind_branch) };

    fn read(&mut self, from: &mut Cursor<'_>) -> BranchRow {
        let entry = self.entry(from);
        let workspace = from.i32();
        let counts = read_branch_counts(from);
        let writes = read_writes(counts.writes, from);
        let reads = read_reads(counts.reads, &writes, from);
        let written_parameters = read_parameter_numbers(counts.written_parameters, from);
        let read_parameters = read_parameter_numbers(counts.read_parameters, from);
        let ends = read_ends(counts.ends, from);
        self.take(entry, from);
        BranchRow {
            entry,
            workspace,
            writes,
            reads,
            written_parameters,
            read_parameters,
            ends,
        }
    }
}

impl Branches {
    /// Adds the entry of a branch to those that are taken.
    fn take(&mut self, entry: u32, from: &mut Cursor<'_>)
        ensures memory { MayRunOut from.old from.new }
        ensures taken { from.new.failure ≡ None
            → (self.new.low ≡ 0) × (self.new.taken.entries.items ≡ self.old.taken.entries.items ++ entry ∷ []) }
        ensures same { self.new.code_len ≡ self.old.code_len }
    {
        if from.has_failed() {
            return;
        }
        self.low = 0;
        if self.taken.add(entry).is_err() {
            from.run_out_of_memory();
        }
    }

    /// `count` branches. The caller sets the entry after which the next row's first branch is.
    pub fn branches(&mut self, count: u16, from: &mut Cursor<'_>) -> Vec<BranchRow>
        ensures takes { Takes (λ size. list_at (branch_row_at size self.old.code_len) behind_branch count
            (record { low = self.old.low; entries = self.old.taken.entries.items }))
            from.old (map branch_of result.items) from.new }
        ensures taken { from.new.failure ≡ None
            → self.new.taken.entries.items ≡ self.old.taken.entries.items ++ entries_of (map branch_of result.items) }
        ensures same { self.new.code_len ≡ self.old.code_len }
    {
        let mut branches = Vec::new(from.alloc());
        fill(self, u32::from(count), &mut branches, from);
        branches
    }
}
