//! The contexts of a module: the root, the procedures and the branches.
#![tactic(auto, unfolding(crate::specs::Contexts::context_at, crate::specs::Contexts::parameters_at))]

ghost use Rattle.std.specs.Prelude.{◌≡◌, option_map};
ghost use Rattle.module_format.specs.Contents.{procedure_of, contents_of};
ghost use Rattle.module_format.specs.Contexts.{root_context, procedure_context, procedure_numbered, own_context};
ghost use Rattle.module_format.specs.Contexts.{own_parameters};

use crate::places::{Place, owner_of};
use crate::row_owners::{RowOwner, row_owner_of, rows_end};
use crate::rows::{Parameter, ProcedureRow};
use crate::tables::Tables;
use std::marker::Model;

/// The frame words of a context, from `lo` up to `hi` (not included), and how many parameters it has.
#[derive(Clone, Copy)]
pub struct Context {
    pub lo: i64,
    pub hi: i64,
    pub parameters: usize,
}

fn root_context(tables: &Tables) -> Context
    ensures { result ≡ root_context (contents_of tables.now) }
{
    let base = i64::from(tables.base);
    Context {
        lo: -base,
        hi: i64::from(tables.data_words) - base,
        parameters: 0,
    }
}

fn procedure_context(row: &ProcedureRow) -> Context
    ensures { result ≡ procedure_context (procedure_of row.now) }
{
    Context {
        lo: i64::from(row.lo),
        hi: i64::from(row.hi),
        parameters: row.parameters.len(),
    }
}

/// The procedure that is the context of a number.
fn procedure_numbered<'t>(tables: &'t Tables, number: u32) -> Option<&'t ProcedureRow>
    ensures { option_map (λ row. procedure_of row.now) result ≡ procedure_numbered (contents_of tables.now) number }
{
    if number == 0 {
        return None;
    }
    tables.procedures.get(number as usize - 1)
}

/// The root, or the procedure that is the context of a number.
fn own_context(tables: &Tables, number: u32) -> Option<Context>
    ensures { result ≡ own_context (contents_of tables.now) number }
{
    if number == 0 {
        return Some(root_context(tables));
    }
    match procedure_numbered(tables, number) {
        Some(row) => Some(procedure_context(row)),
        None => None,
    }
}

/// The parameters of the procedure that is the context of a number; the root has none.
fn own_parameters<'t>(tables: &'t Tables, number: u32) -> &'t [Parameter]
    ensures { result.now ≡ own_parameters (contents_of tables.now) number }
{
    match procedure_numbered(tables, number) {
        Some(row) => &row.parameters,
        None => &[],
    }
}

/// Where the owners of branches are looked up.
#[derive(Clone, Copy)]
enum OwnersBy<'t> {
    /// In the places of the branches: it takes constant time.
    Branch(&'t [Place]),
    /// In the owners of the PAR rows: it takes logarithmic time.
    Row(&'t [RowOwner]),
}

/// The contexts of tables, by their numbers.
#[derive(Drop)]
pub struct Contexts<'t, 'a> {
    tables: &'t Tables<'a>,
    owners: OwnersBy<'t>,
}

impl<'t, 'a> Model for Contexts<'t, 'a> {
    ghost use Rattle.module_format.specs.Contents.{Contents, contents_of};
    ghost use Rattle.module_format.specs.Contexts.{HasFewContexts};
    ghost use Rattle.module_format.specs.Owners.{AreOwners};

    ghost Value = { Contents };

    ghost view = { λ c. contents_of c.tables.now };

    ghost invariant = { λ c. HasFewContexts (contents_of c.tables.now)
        × AreOwners (contents_of c.tables.now) c.owners };
}

impl<'t, 'a> Contexts<'t, 'a> {
    ghost use Rattle.std.specs.Prelude.{◌≡◌, ◌+◌, length};
    ghost use Rattle.module_format.specs.Contents.{contents_of};
    ghost use Rattle.module_format.specs.Contexts.{HasFewContexts, first_branch, branch_count, context_at};
    ghost use Rattle.module_format.specs.Contexts.{parameters_at};
    ghost use Rattle.module_format.specs.Places.{ArePlaces, AreRowOwners, owner_at};

    /// Looked up in the owners of the PAR rows.
    pub(crate) fn of_rows(tables: &'t Tables<'a>, rows: &'t [RowOwner]) -> Contexts<'t, 'a>
        requires few { HasFewContexts (contents_of tables.now) }
        requires rows { AreRowOwners (contents_of tables.now) (length (contents_of tables.now).pars) rows.now }
        ensures { result ≡ contents_of tables.now }
    {
        Contexts {
            tables,
            owners: OwnersBy::Row(rows),
        }
    }

    /// Looked up in the places of the branches.
    pub fn of_places(tables: &'t Tables<'a>, places: &'t [Place]) -> Contexts<'t, 'a>
        requires few { HasFewContexts (contents_of tables.now) }
        requires places { ArePlaces (contents_of tables.now) (branch_count (contents_of tables.now).pars) places.now }
        ensures { result ≡ contents_of tables.now }
    {
        Contexts {
            tables,
            owners: OwnersBy::Branch(places),
        }
    }

    /// The tables.
    pub(crate) fn tables(&self) -> &'t Tables<'a>
        ensures { contents_of result.now ≡ self.now }
    {
        self.tables
    }

    /// The context after the last one.
    fn end(&self) -> usize
        ensures { result ≡ first_branch self.now + branch_count self.now.pars }
    {
        match self.owners {
            OwnersBy::Branch(places) => self.tables.first_branch() + places.len(),
            OwnersBy::Row(rows) => rows_end(self.tables, rows),
        }
    }

    /// The number of the root or procedure that a context is or belongs to, where there is that context.
    pub fn owner(&self, number: u32) -> Option<u32>
        ensures { result ≡ owner_at self.now number }
    {
        if number as usize >= self.end() {
            return None;
        }
        Some(match self.owners {
            OwnersBy::Branch(places) => owner_of(self.tables, places, number),
            OwnersBy::Row(rows) => row_owner_of(self.tables, rows, number),
        })
    }

    /// The context of a number, where there is one.
    pub fn context(&self, number: u32) -> Option<Context>
        ensures { result ≡ context_at self.now number }
    {
        let owner = self.owner(number)?;
        own_context(self.tables, owner)
    }

    /// The parameters of the procedure that a context is or belongs to; none where there is no such
    /// context.
    pub fn parameters(&self, number: u32) -> &'t [Parameter]
        ensures { result.now ≡ parameters_at self.now number }
    {
        match self.owner(number) {
            Some(owner) => own_parameters(self.tables, owner),
            None => &[],
        }
    }
}
