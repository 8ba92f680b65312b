//! What branches of a PAR have in common.

ghost use Rattle.std.specs.Prelude.{◌≡◌, ◌==◌, ◌||◌, map};
ghost use Rattle.std.specs.List.{AllByRecursion, list_any, list_all};
ghost use Rattle.module_format.specs.Contents.{branch_of};
ghost use Rattle.module_format.specs.Order.{InOrder, least_word};
ghost use Rattle.module_format.specs.Pars.{IntervalKeeps, behind_interval, GiftsKeep};
ghost use Rattle.module_format.specs.Pars.{EndKeeps, behind_end, first_key};
ghost use Rattle.certificate.specs.Siblings.{have_common_word, have_common_number, share_what_is_written, is_beside};
ghost use Rattle.certificate.specs.Siblings.{have_common_end};

use module_format::{BranchRow, EndRow, Interval};

/// Whether one of some other intervals has a word of these. Both lists rise. It takes time linear in them.
fn have_common_word(intervals: &[Interval], others: &[Interval]) -> bool
    requires intervals { InOrder IntervalKeeps behind_interval least_word intervals.now }
    requires others { InOrder IntervalKeeps behind_interval least_word others.now }
    ensures { result ≡ have_common_word intervals.now others.now }
{
    let mut left = intervals;
    let mut right = others;
    while let Some((one, after_one)) = left.split_first() {
        let Some((other, after_other)) = right.split_first() else {
            return false;
        };
        if one.hi <= other.lo {
            left = after_one;
        } else if other.hi <= one.lo {
            right = after_other;
        } else {
            return true;
        }
    }
    false
}

/// Whether one of some other ends is among these. Both lists rise. It takes time linear in them.
pub(crate) fn have_common_end(ends: &[EndRow], others: &[EndRow]) -> bool
    requires ends { InOrder EndKeeps behind_end first_key ends.now }
    requires others { InOrder EndKeeps behind_end first_key others.now }
    ensures { result ≡ have_common_end ends.now others.now }
{
    let mut left = ends;
    let mut right = others;
    while let Some((one, after_one)) = left.split_first() {
        let Some((other, after_other)) = right.split_first() else {
            return false;
        };
        if one.key().is_below(&other.key()) {
            left = after_one;
        } else if other.key().is_below(&one.key()) {
            right = after_other;
        } else {
            return true;
        }
    }
    false
}

/// Whether a number is one of these.
fn is_number(numbers: &[u16], other: u16) -> bool
    ensures { result ≡ list_any (λ number. number == other) numbers.now }
{
    numbers.iter().any(|number| *number == other)
}

/// Whether one of some other parameters is among these.
fn have_common_number(numbers: &[u16], others: &[u16]) -> bool
    ensures { result ≡ have_common_number numbers.now others.now }
{
    others.iter().any(|other| is_number(numbers, *other))
}

/// Whether one of two branches writes a word that the other one writes or reads.
fn share_words(branch: &BranchRow, other: &BranchRow) -> bool
    requires branch { GiftsKeep (branch_of branch.now) }
    requires other { GiftsKeep (branch_of other.now) }
    ensures { let b = branch_of branch.now in
        let o = branch_of other.now in
        result ≡ (have_common_word b.writes o.writes || have_common_word b.writes o.reads
        || have_common_word b.reads o.writes) }
{
    have_common_word(&branch.writes, &other.writes)
        || have_common_word(&branch.writes, &other.reads)
        || have_common_word(&branch.reads, &other.writes)
}

/// Whether one of two branches writes what a parameter names that the other one writes or reads.
fn share_parameters(branch: &BranchRow, other: &BranchRow) -> bool
    ensures { let b = branch_of branch.now in
        let o = branch_of other.now in
        result ≡ (have_common_number b.written_parameters o.written_parameters
        || have_common_number b.written_parameters o.read_parameters
        || have_common_number b.read_parameters o.written_parameters) }
{
    have_common_number(&branch.written_parameters, &other.written_parameters)
        || have_common_number(&branch.written_parameters, &other.read_parameters)
        || have_common_number(&branch.read_parameters, &other.written_parameters)
}

/// Whether another branch is the branch itself, or neither writes what the other one uses.
fn is_beside(branch: &BranchRow, other: &BranchRow) -> bool
    requires branch { GiftsKeep (branch_of branch.now) }
    requires other { GiftsKeep (branch_of other.now) }
    ensures { result ≡ is_beside (branch_of branch.now) (branch_of other.now) }
{
    other.entry == branch.entry || !(share_words(branch, other) || share_parameters(branch, other))
}

/// Whether a branch is beside each of these.
pub(crate) fn is_beside_all(branch: &BranchRow, others: &[BranchRow]) -> bool
    requires branch { GiftsKeep (branch_of branch.now) }
    requires others { AllByRecursion (λ row. GiftsKeep (branch_of row)) others.now }
    ensures { result ≡ list_all (is_beside (branch_of branch.now)) (map branch_of others.now) }
{
    let mut rest = others;
    while let Some((other, after)) = rest.split_first() {
        if !is_beside(branch, other) {
            return false;
        }
        rest = after;
    }
    true
}
