//! The runs of channels of all branches.

ghost use Rattle.std.specs.Prelude.{◌≡◌, ◌<◌, ◌+◌, ◌^◌, ℕ, ℤ, Some, IfOk, length};
ghost use Rattle.module_format.specs.Contents.{Par, Branch, contents_of};
ghost use Rattle.module_format.specs.Contexts.{first_branch, branch_count};
ghost use Rattle.module_format.specs.Keeping.{Keeps};
ghost use Rattle.module_format.specs.Places.{ArePlaces};
ghost use Rattle.certificate.specs.Branches.{numbered_branch};
ghost use Rattle.certificate.specs.Rights.{channel_length};
ghost use Rattle.certificate.specs.Runs.{AreRuns};
ghost use Rattle.certificate.specs.BranchRuns.{AreBranchRuns, AreVisits};
ghost use Rattle.certificate.specs.Around.{IsAround};

use crate::around::Around;
use crate::branches::numbered_branch;
use crate::runs::{ChannelRun, runs_of};
use module_format::{Place, Tables};
use std::alloc::{AllocError, Global};

/// A branch by its number among all, and when it is visited.
#[derive(Clone, Copy)]
struct Visit {
    position: u32,
    branch: usize,
}

/// The PAR row of a context, where it is a branch.
fn row_around(tables: &Tables, places: &[Place], context: u16) -> Option<usize> {
    let number = usize::from(context).checked_sub(tables.first_branch())?;
    let place = places.get(number)?;
    Some(usize::from(place.par))
}

/// How many PAR rows each row has in it, itself included.
fn sizes_of(alloc: Global, tables: &Tables, places: &[Place]) -> Result<Vec<u32>, AllocError> {
    let mut sizes: Vec<u32> = Vec::new(alloc);
    sizes.resize(tables.pars.len(), 1)?;
    for row in (0..tables.pars.len()).rev() {
        let size = sizes.get(row).copied().unwrap_or(0);
        if let Some(outer) = row_around(tables, places, tables.pars[row].context) {
            if let Some(sum) = sizes.get_mut(outer) {
                *sum = sum.saturating_add(size);
            }
        }
    }
    Ok(sizes)
}

/// Positions of the PAR rows in an order in which a row is followed by those in it, so that few are left and entered
/// on a walk. Only the time of the walk depends on it.
fn positions_of(alloc: Global, tables: &Tables, places: &[Place]) -> Result<Vec<u32>, AllocError> {
    let sizes = sizes_of(alloc, tables, places)?;
    let mut positions: Vec<u32> = Vec::new(alloc);
    let mut free: Vec<u32> = Vec::new(alloc);
    free.resize(tables.pars.len(), 0)?;
    let mut outside: u32 = 0;
    for row in 0..tables.pars.len() {
        let size = sizes.get(row).copied().unwrap_or(0);
        let next = match row_around(tables, places, tables.pars[row].context) {
            Some(outer) => free.get_mut(outer),
            None => None,
        };
        let position = match next {
            Some(next) => {
                let position = *next;
                *next = next.saturating_add(size);
                position
            }
            None => {
                let position = outside;
                outside = outside.saturating_add(size);
                position
            }
        };
        positions.push(position)?;
        if let Some(inner) = free.get_mut(row) {
            *inner = position.saturating_add(1);
        }
    }
    Ok(positions)
}

/// Visits of all branches, row by row.
fn visits_of(alloc: Global, tables: &Tables, places: &[Place]) -> Result<Vec<Visit>, AllocError>
    ensures { IfOk result (λ visits. AreVisits (length places.now) visits.items) }
{
    let positions = positions_of(alloc, tables, places)?;
    let mut visits = Vec::new(alloc);
    for branch in 0..places.len() {
        let row = usize::from(places[branch].par);
        let position = positions.get(row).copied().unwrap_or(0);
        visits.push(Visit { position, branch })?;
    }
    visits.sort_unstable_by_key(|visit| visit.position);
    Ok(visits)
}

/// The runs of the branch that is a context, to which the walk goes.
fn visited_runs(
    alloc: Global,
    tables: &Tables,
    places: &[Place],
    around: &mut Around,
    context: u32,
) -> Result<Vec<ChannelRun>, AllocError>
    requires keeps { Keeps (contents_of tables.now) }
    requires places { ArePlaces (contents_of tables.now) (branch_count (contents_of tables.now).pars) places.now }
    requires around { IsAround (contents_of tables.now) around.now }
    ensures around { IfOk result (λ _. IsAround (contents_of tables.now) around.new) }
    ensures runs { IfOk result (λ runs. (x : Par × Branch)
        → numbered_branch (contents_of tables.now) context ≡ Some x
        → AreRuns (channel_length (contents_of tables.now) context) x.1.ends runs.items) }
{
    around.enter(alloc, tables, places, context)?;
    match numbered_branch(tables, places, context) {
        Some((_number, _row, branch)) => runs_of(alloc, &branch.ends, &around.lengths),
        None => Ok(Vec::new(alloc)),
    }
}

/// For each branch and each end of a frame word that it has, the run of channels from that word on. It takes time
/// n log n in the rows, and memory in proportion to them.
pub(crate) fn branch_runs_of(
    alloc: Global,
    tables: &Tables,
    places: &[Place],
) -> Result<Vec<Vec<ChannelRun>>, AllocError>
    requires keeps { Keeps (contents_of tables.now) }
    requires places { ArePlaces (contents_of tables.now) (branch_count (contents_of tables.now).pars) places.now }
    ensures { IfOk result (λ runs. AreBranchRuns (contents_of tables.now) runs.items) }
{
    let first = tables.first_branch();
    let visits = visits_of(alloc, tables, places)?;
    let mut around = Around::new(alloc);
    let mut runs = Vec::new(alloc);
    for _ in 0..places.len() {
        runs.push(Vec::new(alloc))?;
    }
    for index in 0..visits.len() {
        let branch = visits[index].branch;
        let context = (first + branch) as u32;
        runs[branch] = visited_runs(alloc, tables, places, &mut around, context)?;
    }
    Ok(runs)
}
