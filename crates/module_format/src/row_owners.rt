//! What the branches of each PAR row belong to, in an array that takes no allocation.

ghost use Rattle.std.specs.Prelude.{◌≡◌, ◌<◌, ◌≤◌, length};
ghost use Rattle.module_format.specs.Contents.{Contents, contents_of};
ghost use Rattle.module_format.specs.Contexts.{owner, first_branch};
ghost use Rattle.module_format.specs.Keeping.{LimitsKeep, RowsKeep};
ghost use Rattle.module_format.specs.Places.{rows_end, AreRowOwners, IsOwnersRow};

use crate::limits::MAX_PARS;
use crate::rows::ParRow;
use crate::tables::Tables;
use arrayvec::ArrayVec;

/// The most PAR rows that there are.
const MOST_ROWS: usize = MAX_PARS as usize;

/// What the branches of a PAR row belong to.
#[derive(Clone, Copy, Default)]
pub(crate) struct RowOwner {
    /// The context after the last branch of the row.
    pub end: usize,
    /// The context of the root or procedure.
    pub owner: u32,
}

/// The context after the branches of the first PAR rows, which have these owners.
pub(crate) fn rows_end(tables: &Tables, rows: &[RowOwner]) -> usize
    requires { AreRowOwners (contents_of tables.now) (length rows.now) rows.now }
    ensures { result ≡ rows_end (contents_of tables.now) (length rows.now) }
{
    match rows.last() {
        Some(row) => row.end,
        None => tables.first_branch(),
    }
}

/// The PAR row of a branch, where the first PAR rows have these owners. It takes logarithmic time.
fn row_of(rows: &[RowOwner], context: usize) -> usize
    ensures { (c : Contents) → first_branch c ≤ context → context < rows_end c (length rows.now)
        → AreRowOwners c (length rows.now) rows.now → IsOwnersRow c rows.now context result }
{
    rows.partition_point(|row| row.end <= context)
}

/// The root or procedure that a context is or belongs to, where the first PAR rows have these owners.
pub(crate) fn row_owner_of(tables: &Tables, rows: &[RowOwner], context: u32) -> u32
    requires there { context < rows_end (contents_of tables.now) (length rows.now) }
    requires owners { AreRowOwners (contents_of tables.now) (length rows.now) rows.now }
    ensures { result ≡ owner (first_branch (contents_of tables.now)) (contents_of tables.now).pars context }
{
    let number = context as usize;
    if number < tables.first_branch() {
        return context;
    }
    rows[row_of(rows, number)].owner
}

/// The owners of the branches of all PAR rows.
pub(crate) fn row_owners(tables: &Tables) -> ArrayVec<RowOwner, MOST_ROWS>
    requires limits { LimitsKeep (contents_of tables.now) }
    requires rows { RowsKeep (contents_of tables.now) }
    ensures { AreRowOwners (contents_of tables.now) (length (contents_of tables.now).pars) result.items }
{
    let mut owners = ArrayVec::new();
    let mut end = tables.first_branch();
    let rows: &[ParRow] = &tables.pars;
    for row in rows {
        let owner = row_owner_of(tables, &owners, u32::from(row.context));
        end += row.branches.len();
        owners.push(RowOwner { end, owner });
    }
    owners
}
