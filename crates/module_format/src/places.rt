//! Where the rows of branches are.

ghost use Rattle.std.specs.Prelude.{◌≡◌, ◌+◌, ◌<◌, IfOk, length};
ghost use Rattle.module_format.specs.Contents.{contents_of};
ghost use Rattle.module_format.specs.Contexts.{owner, first_branch, branch_count};
ghost use Rattle.module_format.specs.Keeping.{LimitsKeep, RowsKeep};
ghost use Rattle.module_format.specs.Places.{ArePlaces};

use crate::tables::Tables;
use std::alloc::{AllocError, Global};

/// Where the row of a branch is, and what the branch belongs to.
#[derive(Clone, Copy)]
pub struct Place {
    /// The PAR row.
    pub par: u16,
    /// The number of the branch in that row.
    pub branch: u16,
    /// The context of the root or procedure.
    pub owner: u32,
}

/// The root or procedure that a context is or belongs to, where the first branches have these places.
pub(crate) fn owner_of(tables: &Tables, places: &[Place], context: u32) -> u32
    requires there { context < first_branch (contents_of tables.now) + length places.now }
    requires places { ArePlaces (contents_of tables.now) (length places.now) places.now }
    ensures { result ≡ owner (first_branch (contents_of tables.now)) (contents_of tables.now).pars context }
{
    let first = tables.first_branch();
    let number = context as usize;
    if number < first {
        return context;
    }
    places[number - first].owner
}

/// The places of all branches, in the order of their contexts.
pub(crate) fn places_of(alloc: Global, tables: &Tables) -> Result<Vec<Place>, AllocError>
    requires limits { LimitsKeep (contents_of tables.now) }
    requires rows { RowsKeep (contents_of tables.now) }
    ensures { IfOk result (λ places. ArePlaces (contents_of tables.now)
        (branch_count (contents_of tables.now).pars) places.items) }
{
    let mut places = Vec::new(alloc);
    for par in 0..tables.pars.len() {
        let row = &tables.pars[par];
        let owner = owner_of(tables, &places, u32::from(row.context));
        for branch in 0..row.branches.len() {
            places.push(Place {
                par: par as u16,
                branch: branch as u16,
                owner,
            })?;
        }
    }
    Ok(places)
}
