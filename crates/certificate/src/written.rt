//! The words that the branches of PAR rows write.

ghost use Rattle.std.specs.Prelude.{◌≡◌, ℤ, length, IfOk};
ghost use Rattle.module_format.specs.Contents.{contents_of, par_of};
ghost use Rattle.certificate.specs.Rights.{is_among};
ghost use Rattle.certificate.specs.Starting.{is_written};
ghost use Rattle.certificate.specs.Words.{AreJoined};
ghost use Rattle.certificate.specs.Written.{AreWritten};

use crate::joining::joined;
use module_format::{BranchRow, Interval, ParRow, Tables};
use std::alloc::{AllocError, Global};

/// The intervals that the branches of a PAR row write, one branch after the other.
fn intervals_of(alloc: Global, par: &ParRow) -> Result<Vec<Interval>, AllocError>
    ensures { IfOk result (λ intervals. (k : ℤ) → is_among intervals.items k ≡ is_written (par_of par.now) k) }
{
    let mut intervals = Vec::new(alloc);
    let mut rest: &[BranchRow] = &par.branches;
    while let Some((branch, after)) = rest.split_first() {
        intervals.extend_from_slice(&branch.writes)?;
        rest = after;
    }
    Ok(intervals)
}

/// The words that the branches of a PAR row write, as joined intervals.
fn written_words(alloc: Global, par: &ParRow) -> Result<Vec<Interval>, AllocError>
    ensures { IfOk result (λ words. AreJoined (is_written (par_of par.now)) words.items) }
{
    let intervals = intervals_of(alloc, par)?;
    joined(alloc, intervals)
}

/// For each PAR row, the words that its branches write, as joined intervals. It takes time n log n in the intervals,
/// and memory in proportion to them.
pub(crate) fn written_of(alloc: Global, tables: &Tables) -> Result<Vec<Vec<Interval>>, AllocError>
    ensures { let c = contents_of tables.now in
        IfOk result (λ written. AreWritten c (length c.pars) written.items) }
{
    let mut written = Vec::new(alloc);
    for index in 0..tables.pars.len() {
        written.push(written_words(alloc, &tables.pars[index])?)?;
    }
    Ok(written)
}
