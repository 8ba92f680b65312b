//! How contexts are named in a draft.

ghost use Rattle.std.specs.Prelude.{◌≡◌, ◌≢◌, ◌<◌, ℕ, List, length, map, nat_eq, slice_index_or, if◌then◌else◌, IfOk};
ghost use Rattle.std.specs.Prelude.{IfErr, Err};
ghost use Rattle.std.specs.List.{AllByRecursion};
ghost use Rattle.code_pieces.specs.Pars.{Par};
ghost use Rattle.code_pieces.specs.PieceViews.{branch_of, pieces_of};
ghost use Rattle.code_pieces.specs.Contexts.{nowhere, name_among, context_name, AreNames};
ghost use Rattle.code_pieces.specs.Laying.{pars_of};
ghost use Rattle.code_pieces.specs.WellFormed.{IsOfOneProcess};

use crate::piece::{CodeContext, ParBranch, Piece};
use module_builder::{ContextName, GenFault};
use std::alloc::Global;

/// A context that no module of pieces has, since it has no procedures.
const NOWHERE: ContextName = ContextName::Procedure(0);

/// The names of branches, by the labels of their entries.
#[derive(Drop)]
pub struct ContextNames {
    names: Vec<ContextName>,
}

/// Sets the name at a label.
fn set_name(names: &mut [ContextName], entry: usize, name: ContextName) -> Result<(), GenFault>
    ensures count { length names.new ≡ length names.old }
    ensures ok { IfOk result (λ _. (k : ℕ) → k < length names.old → slice_index_or names.new k nowhere
        ≡ (if nat_eq entry k then name else slice_index_or names.old k nowhere)) }
    ensures err { IfErr result (λ e. e ≡ GenFault.Invalid) }
{
    if entry >= names.len() {
        return Err(GenFault::Invalid);
    }
    names[entry] = name;
    Ok(())
}

/// Sets the names of the branches of a PAR.
fn set_names(names: &mut [ContextName], par: usize, branches: &[ParBranch]) -> Result<(), GenFault>
    ensures count { length names.new ≡ length names.old }
    ensures ok { IfOk result (λ _. (k : ℕ) → k < length names.old → slice_index_or names.new k nowhere
        ≡ name_among k par 0 (map branch_of branches.now) (slice_index_or names.old k nowhere)) }
    ensures err { IfErr result (λ e. e ≡ GenFault.Invalid) }
{
    for (branch, row) in branches.iter().enumerate() {
        set_name(names, row.entry, ContextName::Branch { par, branch })?;
    }
    Ok(())
}

impl ContextNames {
    /// The names of the branches of these pieces, which have `labels` labels.
    ///
    /// # Errors
    ///
    /// `Invalid` if the entry of a branch is a label that is not there; `Memory` if memory runs out.
    pub fn of(alloc: Global, pieces: &[Piece], labels: usize) -> Result<ContextNames, GenFault>
        ensures ok { IfOk result (λ c. AreNames c (pars_of (pieces_of pieces.now))) }
        ensures limit { result ≢ Err GenFault.Limit }
        ensures invalid { result ≡ Err GenFault.Invalid → ¬ AllByRecursion IsOfOneProcess (pieces_of pieces.now) }
    {
        let mut names = vec![in alloc; NOWHERE; labels]?;
        let mut par = 0;
        for piece in pieces {
            if let Piece::Par(ref row) = *piece {
                set_names(&mut names, par, &row.branches)?;
                par += 1;
            }
        }
        Ok(ContextNames { names })
    }

    /// The name of a context.
    ///
    /// # Errors
    ///
    /// `Invalid` if its entry is a label that is not there.
    pub fn name(&self, context: CodeContext) -> Result<ContextName, GenFault>
        ensures ok { IfOk result (λ name. (ps : List Par) → AreNames self.now ps → name ≡ context_name ps context) }
        ensures err { IfErr result (λ e. e ≡ GenFault.Invalid) }
        ensures root { context ≡ CodeContext.Root → result ≢ Err GenFault.Invalid }
    {
        match context {
            CodeContext::Root => Ok(ContextName::Root),
            CodeContext::Branch { entry } => match self.names.get(entry) {
                Some(name) => Ok(*name),
                None => Err(GenFault::Invalid),
            },
        }
    }
}
