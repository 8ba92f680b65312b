//! What a branch of a PAR is given: whether there is something to give.

ghost use Rattle.std.specs.Prelude.{◌≡◌, pos, ◌-ℤ◌, is_some, Some, None, slice_get, MatchOption};
ghost use Rattle.std.specs.List.{list_all};
ghost use Rattle.module_format.specs.Contents.{branch_of, contents_of, par_of};
ghost use Rattle.certificate.specs.Rights.{may_write_word};
ghost use Rattle.rulings.specs.Reach.{readable_bytes, writable_bytes};
ghost use Rattle.par_rules.specs.Gifts.{may_give_parameters, has_scheduling_words};

use certificate::Module;
use module_format::{BranchRow, ParRow, Tables};
use rulings::Place;

/// The row of a PAR, if there is one of this number.
pub(crate) fn par_at<'t>(tables: &'t Tables, row: u32) -> Option<&'t ParRow>
    ensures { let found = slice_get (contents_of tables.now).pars row in
        MatchOption result (found ≡ None) (λ par. found ≡ Some (par_of par.now)) }
{
    tables.pars.get(row as usize)
}

/// Whether a context may write what all these parameters name.
fn writes_parameters(place: &Place, context: u32, parameters: &[u16]) -> bool
    ensures { result ≡ list_all (λ j. is_some (writable_bytes place.now.module.now context j)) parameters.now }
{
    parameters.iter().all(|parameter| place.writable_bytes(context, *parameter).is_some())
}

/// Whether a context may read what all these parameters name.
fn reads_parameters(place: &Place, context: u32, parameters: &[u16]) -> bool
    ensures { result ≡ list_all (λ j. is_some (readable_bytes place.now.module.now context j)) parameters.now }
{
    parameters.iter().all(|parameter| place.readable_bytes(context, *parameter).is_some())
}

/// Whether a context may write what the parameters name that a branch writes, and read what those name that it reads.
pub(crate) fn may_give_parameters(place: &Place, context: u32, branch: &BranchRow) -> bool
    ensures { result ≡ may_give_parameters place.now.module.now context (branch_of branch.now) }
{
    writes_parameters(place, context, &branch.written_parameters)
        && reads_parameters(place, context, &branch.read_parameters)
}

/// Whether a context may write the word this far below a workspace.
fn writes_below(module: &Module, context: u32, workspace: i32, distance: u32) -> bool
    ensures { result ≡ may_write_word «module».now context (workspace -ℤ pos distance) }
{
    module.may_write_word(context, i64::from(workspace) - i64::from(distance))
}

/// Whether the branch that is this context may write the three words below its workspace.
pub(crate) fn has_scheduling_words(module: &Module, context: u32, branch: &BranchRow) -> bool
    ensures { result ≡ has_scheduling_words «module».now context (branch_of branch.now) }
{
    writes_below(module, context, branch.workspace, 1)
        && writes_below(module, context, branch.workspace, 2)
        && writes_below(module, context, branch.workspace, 3)
}
