//! The PAR rows of a draft.

ghost use Rattle.std.specs.Prelude.{◌≡◌, ◌≢◌, ℕ, List, map, Option, IfOk, Err};
ghost use Rattle.std.specs.List.{AllByRecursion};
ghost use Rattle.module_builder.specs.declared.draft.ContextName as name;
ghost use Rattle.module_builder.specs.Placing.{placed_branch, placed_par};
ghost use Rattle.code_pieces.specs.Pars as pars;
ghost use Rattle.code_pieces.specs.PieceViews.{branch_of, par_of, pieces_of};
ghost use Rattle.code_pieces.specs.Contexts.{context_name, AreNames};
ghost use Rattle.code_pieces.specs.Laying.{pars_of};
ghost use Rattle.code_pieces.specs.DraftedPars.{laid_branch, laid_par, AreRows};
ghost use Rattle.code_pieces.specs.WellFormed.{IsOfOneProcess};

use crate::contexts::ContextNames;
use crate::drafting::made;
use crate::piece::{Par, ParBranch, Piece};
use module_builder::{ContextName, GenFault, Instructions, Label};
use module_format::{BranchRow, ParRow};
use smallvec::SmallVec;
use std::alloc::Global;

/// The row of a branch.
fn branch_row(
    alloc: Global,
    code: &Instructions,
    branch: &ParBranch,
) -> Result<BranchRow<Label>, GenFault>
    ensures ok { IfOk result (λ row. (offsets : List (Option ℕ))
        → placed_branch offsets row ≡ laid_branch offsets (branch_of branch.now)) }
    ensures limit { result ≢ Err GenFault.Limit }
{
    Ok(BranchRow {
        entry: made(code, branch.entry)?,
        workspace: branch.depth,
        writes: SmallVec::from_slice(alloc, &branch.writes)?,
        reads: SmallVec::from_slice(alloc, &branch.reads)?,
        written_parameters: SmallVec::new(alloc),
        read_parameters: SmallVec::new(alloc),
        ends: Vec::from_slice(alloc, &branch.ends)?,
    })
}

/// The rows of branches.
fn branch_rows(
    alloc: Global,
    code: &Instructions,
    branches: &[ParBranch],
) -> Result<Vec<BranchRow<Label>>, GenFault>
    ensures ok { IfOk result (λ v. (offsets : List (Option ℕ))
        → map (placed_branch offsets) v.items ≡ map (laid_branch offsets) (map branch_of branches.now)) }
    ensures limit { result ≢ Err GenFault.Limit }
{
    let mut rows = Vec::with_capacity(alloc, branches.len())?;
    for branch in branches {
        rows.push(branch_row(alloc, code, branch)?)?;
    }
    Ok(rows)
}

/// The row of a PAR.
fn par_row(
    alloc: Global,
    code: &Instructions,
    contexts: &ContextNames,
    par: &Par,
) -> Result<ParRow<Label, ContextName>, GenFault>
    ensures ok { IfOk result (λ row. (all : List pars.Par) (number : name.ContextName → ℕ) (offsets : List (Option ℕ))
        → AreNames contexts.now all → placed_par offsets (number row.context) row
        ≡ laid_par (λ context. number (context_name all context)) offsets (par_of par.now)) }
    ensures limit { result ≢ Err GenFault.Limit }
{
    Ok(ParRow {
        context: contexts.name(par.opener.context)?,
        depth: par.opener.depth,
        block: par.opener.depth,
        successor: made(code, par.successor)?,
        channels: Vec::from_slice(alloc, &par.channels)?,
        branches: branch_rows(alloc, code, &par.branches)?,
    })
}

/// The PAR rows of a draft, which has the labels in its code.
///
/// # Errors
///
/// `Invalid` if a PAR names a label that is not there; `Memory` if memory runs out.
pub fn par_rows(
    alloc: Global,
    code: &Instructions,
    contexts: &ContextNames,
    pieces: &[Piece],
) -> Result<Vec<ParRow<Label, ContextName>>, GenFault>
    ensures ok { IfOk result (λ v. (all : List pars.Par) → AreNames contexts.now all
        → AreRows all (pars_of (pieces_of pieces.now)) v.items) }
    ensures limit { result ≢ Err GenFault.Limit }
    ensures invalid { result ≡ Err GenFault.Invalid → ¬ AllByRecursion IsOfOneProcess (pieces_of pieces.now) }
{
    let mut rows = Vec::new(alloc);
    for piece in pieces {
        if let Piece::Par(ref par) = *piece {
            rows.push(par_row(alloc, code, contexts, par)?)?;
        }
    }
    Ok(rows)
}
