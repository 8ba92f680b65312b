//! The branch that a start names.

ghost use Rattle.std.specs.Prelude.{◌≡◌, ◌+◌, ◌<◌, ◌^◌, ℕ, Some, None, MatchOption, IfSome, map};
ghost use Rattle.module_format.specs.Contents.{par_of};
ghost use Rattle.module_format.specs.Contexts.{first_branch};
ghost use Rattle.machine_state.specs.BranchContexts.{context_of};
ghost use Rattle.machine_state.specs.JoinLookups.{found_at};
ghost use Rattle.rulings.specs.Places.{site_of};
ghost use Rattle.par_rules.specs.ParRules.{named_branch};
ghost use Rattle.par_rules.specs.Finding.{place_from, found_view, IsNumbered, IsInRow};

use certificate::Module;
use machine_state::branches_are_contexts;
use module_format::{BranchRow, Fact, ParRow};
use rulings::Place;

/// A branch, the number of its row, its own number in the row, and its number as a context.
#[derive(Clone, Copy)]
pub(crate) struct Found<'a> {
    pub row: usize,
    pub par: &'a ParRow,
    pub number: usize,
    pub branch: &'a BranchRow,
    pub context: u32,
}

/// Where a branch is: the number of its row, and its own number in the row.
#[derive(Clone, Copy)]
pub(crate) struct InRow {
    pub row: usize,
    pub number: usize,
}

/// Where the branch is that has `before` branches before it.
fn place_of(pars: &[ParRow], before: usize) -> Option<InRow>
    ensures { result ≡ place_from 0 (map par_of pars.now) before }
{
    let mut left = before;
    for (row, par) in pars.iter().enumerate() {
        let count = par.branches.len();
        if left < count {
            return Some(InRow { row, number: left });
        }
        left -= count;
    }
    None
}

/// Where the branch is that is a context.
fn place_in(module: &Module, context: u32) -> Option<InRow>
    ensures { (before : ℕ) → context ≡ first_branch «module».now + before
        → result ≡ place_from 0 «module».now.pars before }
{
    let tables = module.tables();
    let before = (context as usize).checked_sub(tables.first_branch())?;
    place_of(&tables.pars, before)
}

/// The branch that begins at a code offset, if there is one. It takes time linear in the PAR rows.
fn found_at<'s>(module: &'s Module, target: u32) -> Option<Found<'s>>
    ensures found { MatchOption result (found_at «module».now target ≡ None)
        (λ f. found_at «module».now target ≡ Some (found_view f)) }
    ensures context { IfSome result (λ f. f.context ≡ context_of «module».now (found_view f)) }
    ensures numbered { IfSome result (IsNumbered «module».now) }
    ensures in_row { IfSome result (IsInRow «module».now) }
    ensures small { IfSome result (λ f. (f.row < 2 ^ 32) × (f.number + 1 < 2 ^ 32)) }
{
    branches_are_contexts();
    let _tables = module.tables();
    let (context, par, branch) = module.branch_at(target)?;
    let InRow { row, number } = place_in(module, context)?;
    Some(Found {
        row,
        par,
        number,
        branch,
        context,
    })
}

/// The branch that begins a constant number of bytes after the instruction.
pub(crate) fn named_branch<'s>(place: &Place<'s, '_>, fact: Fact) -> Option<Found<'s>>
    ensures found { MatchOption result (named_branch (site_of place.now) fact ≡ None)
        (λ f. named_branch (site_of place.now) fact ≡ Some (found_view f)) }
    ensures context { IfSome result (λ f. f.context ≡ context_of place.now.module.now (found_view f)) }
    ensures numbered { IfSome result (IsNumbered place.now.module.now) }
    ensures in_row { IfSome result (IsInRow place.now.module.now) }
    ensures small { IfSome result (λ f. (f.row < 2 ^ 32) × (f.number + 1 < 2 ^ 32)) }
{
    let Fact::Number { lo, hi } = fact else {
        return None;
    };
    if lo != hi {
        return None;
    }
    found_at(place.module, place.target(lo))
}
