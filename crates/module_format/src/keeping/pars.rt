//! PAR rows.

ghost use Rattle.std.specs.Prelude.{◌≡◌, ◌↔◌, ◌+◌, ◌^◌, ◌<◌, ◌≤◌, ◌++◌, IsTrue, ℕ, List, map, length};
ghost use Rattle.module_format.specs.Contents.{branch_of, counts_of, CountsFit, par_of};
ghost use Rattle.module_format.specs.Order.{InOrder, least_word};
ghost use Rattle.module_format.specs.OffsetSet.{IsSetOf};
ghost use Rattle.module_format.specs.declared.limits.TheConstants.{MAX_LONG_CODE, MAX_PARS};
ghost use Rattle.module_format.specs.Pars.{IntervalKeeps, behind_interval, ReadKeeps};
ghost use Rattle.module_format.specs.Pars.{EndKindKeeps};
ghost use Rattle.module_format.specs.Pars.{GiftsKeep, BranchKeeps, behind_branch, ParKeeps, behind_par, no_branches};
ghost use Rattle.module_format.specs.Pars.{entries_of};

use crate::keeping::list::all_keep;
use crate::limits::MAX_BRANCHES;
use crate::listed::Written;
use crate::offset_set::OffsetSet;
use crate::reading::{LEAST_WORD, first_entry};
use crate::rows::{BranchRow, EndKey, EndKind, Interval, ParRow};
use crate::rules::lies_after;

/// What an end belongs to.
pub(crate) fn end_kind_keeps(kind: &EndKind) -> bool
    ensures { IsTrue result ↔ EndKindKeeps kind.now }
{
    match *kind {
        EndKind::Link(link) => link < 8,
        EndKind::FrameWord(_word) => true,
        EndKind::Parameter {
            number: _number,
            element: _element,
        } => true,
    }
}

/// Intervals that are read, none of them with a word that is written.
fn reads_keep(intervals: &[Interval], reads: &[Interval]) -> bool
    requires { InOrder IntervalKeeps behind_interval least_word intervals.now }
    ensures { IsTrue result ↔ InOrder (ReadKeeps intervals.now) behind_interval least_word reads.now }
{
    all_keep(&Written { intervals }, LEAST_WORD, reads)
}

/// How long the lists of a branch are.
fn counts_fit(row: &BranchRow) -> bool
    ensures { IsTrue result ↔ CountsFit (counts_of (branch_of row.now)) }
{
    const MOST: usize = u16::MAX as usize;
    row.writes.len() <= MOST
        && row.reads.len() <= MOST
        && row.written_parameters.len() <= MOST
        && row.read_parameters.len() <= MOST
        && row.ends.len() <= MOST
}

/// What a branch is given.
fn gifts_keep(row: &BranchRow) -> bool
    ensures { IsTrue result ↔ GiftsKeep (branch_of row.now) }
{
    counts_fit(row)
        && all_keep::<(), Interval>(&(), LEAST_WORD, &row.writes)
        && reads_keep(&row.writes, &row.reads)
        && all_keep(&(), 0, &row.written_parameters)
        && all_keep(&(), 0, &row.read_parameters)
        && all_keep(&(), EndKey::first(), &row.ends)
}

/// A branch with its entry after `low`, where the entries of the branches before it are taken.
fn branch_keeps(code_len: usize, low: u32, taken: &OffsetSet, row: &BranchRow) -> bool
    ensures kept { (entries : List ℕ) → IsSetOf taken.now.words entries
        → IsTrue result ↔ BranchKeeps code_len (record { low = low; entries = entries }) (branch_of row.now) }
    ensures inside { IsTrue result → row.now.entry < code_len }
{
    let _workspace = row.workspace;
    lies_after(low, row.entry, code_len) && !taken.contains(row.entry) && gifts_keep(row)
}

/// The branches of a row, the first with its entry after `low`. Their entries are then taken too.
fn branches_keep(code_len: usize, low: u32, taken: &mut OffsetSet, rows: &[BranchRow]) -> bool
    requires { code_len ≤ MAX_LONG_CODE }
    ensures kept { (entries : List ℕ) → IsSetOf taken.old.words entries
        → IsTrue result
        ↔ InOrder (BranchKeeps code_len) behind_branch (record { low = low; entries = entries })
        (map branch_of rows.now) }
    ensures taken { (entries : List ℕ) → IsSetOf taken.old.words entries
        → IsTrue result → IsSetOf taken.new.words (entries ++ entries_of (map branch_of rows.now)) }
{
    let mut above = low;
    for row in rows {
        if !branch_keeps(code_len, above, taken, row) {
            return false;
        }
        taken.add(row.entry);
        above = 0;
    }
    true
}

/// A PAR row, the first of its branches with its entry after `low`, where `contexts` are before its own
/// branches. The entries of its branches are then taken too.
fn par_keeps(
    contexts: usize,
    code_len: usize,
    low: u32,
    taken: &mut OffsetSet,
    row: &ParRow,
) -> bool
    requires { code_len ≤ MAX_LONG_CODE }
    ensures kept { (own : ℕ) (entries : List ℕ) → contexts ≡ own + length entries → IsSetOf taken.old.words entries
        → IsTrue result ↔ ParKeeps own code_len (record { low = low; entries = entries }) (par_of row.now) }
    ensures taken { (entries : List ℕ) → IsSetOf taken.old.words entries
        → IsTrue result → IsSetOf taken.new.words (entries ++ entries_of (map branch_of row.now.branches.items)) }
{
    let (_depth, _block) = (row.depth, row.block);
    usize::from(row.context) < contexts
        && lies_after(0, row.successor, code_len)
        && row.channels.len() <= usize::from(u16::MAX)
        && all_keep(&(), LEAST_WORD, &row.channels)
        && !row.branches.is_empty()
        && row.branches.len() <= usize::from(MAX_BRANCHES)
        && branches_keep(code_len, low, taken, &row.branches)
}

/// PAR rows of a module in which the root and the procedures have the contexts below `own`.
pub(crate) fn pars_keep(own: usize, code_len: usize, rows: &[ParRow]) -> bool
    requires few { length rows.now ≤ MAX_PARS }
    requires own { own ≤ 65536 }
    requires code { code_len ≤ MAX_LONG_CODE }
    ensures { IsTrue result ↔ InOrder (ParKeeps own code_len) behind_par no_branches (map par_of rows.now) }
{
    let mut low = 0;
    let mut contexts = own;
    let mut taken = OffsetSet::new();
    for row in rows {
        if !par_keeps(contexts, code_len, low, &mut taken, row) {
            return false;
        }
        low = first_entry(&row.branches);
        contexts += row.branches.len();
    }
    true
}
