//! The words that branches have.

ghost use Rattle.std.specs.Prelude.{◌≡◌, ◌||◌, IfOk, length};
ghost use Rattle.module_format.specs.Contents.{contents_of, branch_of};
ghost use Rattle.module_format.specs.Contexts.{branch_count};
ghost use Rattle.module_format.specs.Keeping.{Keeps};
ghost use Rattle.module_format.specs.Places.{ArePlaces};
ghost use Rattle.certificate.specs.Rights.{is_among};
ghost use Rattle.certificate.specs.Words.{AreJoined};
ghost use Rattle.certificate.specs.Owned.{AreOwn, AreOwnOf, AreAllOwn};

use crate::branches::numbered_branch;
use crate::joining::joined;
use module_format::{BranchRow, Interval, Place, Tables};
use std::alloc::{AllocError, Global};

/// The words that a branch has, as joined intervals.
#[derive(Drop)]
pub(crate) struct OwnWords {
    /// Those that it may write.
    pub writes: Vec<Interval>,
    /// Those that it may read, which are these too.
    pub reads: Vec<Interval>,
}

/// The words that a branch may write.
fn written_words(alloc: Global, branch: &BranchRow) -> Result<Vec<Interval>, AllocError>
    ensures { IfOk result (λ words. AreJoined (is_among (branch_of branch.now).writes) words.items) }
{
    let mut intervals = Vec::new(alloc);
    intervals.extend_from_slice(&branch.writes)?;
    joined(alloc, intervals)
}

/// The words that a branch may read.
fn readable_words(alloc: Global, branch: &BranchRow) -> Result<Vec<Interval>, AllocError>
    ensures { let b = branch_of branch.now in
        IfOk result (λ words. AreJoined (λ k. is_among b.writes k || is_among b.reads k) words.items) }
{
    let mut intervals = Vec::new(alloc);
    intervals.extend_from_slice(&branch.writes)?;
    intervals.extend_from_slice(&branch.reads)?;
    joined(alloc, intervals)
}

/// The words that a branch has.
fn own_words(alloc: Global, branch: &BranchRow) -> Result<OwnWords, AllocError>
    ensures { IfOk result (AreOwn (branch_of branch.now)) }
{
    let writes = written_words(alloc, branch)?;
    let reads = readable_words(alloc, branch)?;
    Ok(OwnWords { writes, reads })
}

/// The words of the branch that is a context; none where it is no branch.
fn context_words(
    alloc: Global,
    tables: &Tables,
    places: &[Place],
    context: u32,
) -> Result<OwnWords, AllocError>
    requires { ArePlaces (contents_of tables.now) (branch_count (contents_of tables.now).pars) places.now }
    ensures { IfOk result (AreOwnOf (contents_of tables.now) context) }
{
    match numbered_branch(tables, places, context) {
        Some((_number, _row, branch)) => own_words(alloc, branch),
        None => Ok(OwnWords {
            writes: Vec::new(alloc),
            reads: Vec::new(alloc),
        }),
    }
}

/// The words of all branches, in the order of their contexts. It takes time n log n in their intervals, and memory in
/// proportion to them.
pub(crate) fn own_words_of(
    alloc: Global,
    tables: &Tables,
    places: &[Place],
) -> Result<Vec<OwnWords>, AllocError>
    requires keeps { Keeps (contents_of tables.now) }
    requires places { ArePlaces (contents_of tables.now) (branch_count (contents_of tables.now).pars) places.now }
    ensures { IfOk result (λ own. AreAllOwn (contents_of tables.now) (length places.now) own.items) }
{
    let first = tables.first_branch();
    let mut own = Vec::new(alloc);
    for number in 0..places.len() {
        let context = (first + number) as u32;
        own.push(context_words(alloc, tables, places, context)?)?;
    }
    Ok(own)
}
