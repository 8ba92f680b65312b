//! The numbers of contexts.

ghost use Rattle.std.specs.Prelude.{◌≡◌, ◌≤◌, ◌<◌, ◌*◌, length, Some};
ghost use Rattle.module_builder.specs.Limits.{DraftIsWithin};
ghost use Rattle.module_builder.specs.Numbered.{IsNumbered};
ghost use Rattle.module_builder.specs.Assembled.{nameable, branch_number, first_context, context_number};
ghost use Rattle.module_builder.specs.declared.draft.ContextName.TheVariants.{Procedure, Branch};

use crate::draft::{ContextName, Draft};
use crate::item::Label;
use crate::limits::MAX_CONTEXTS;
use crate::orders::Orders;
use module_format::ParRow;

/// A number that a file can name.
fn nameable(number: usize) -> Option<u16>
    ensures { result ≡ nameable number }
{
    if number < MAX_CONTEXTS {
        Some(number as u16)
    } else {
        None
    }
}

/// The number of a PAR row's first branch.
fn first_context(draft: &Draft, orders: &Orders, par: usize) -> usize
    requires numbered { IsNumbered draft.now orders.now }
    requires within { DraftIsWithin draft.now }
    requires there { par < length draft.now.pars.items }
    ensures value { result ≡ first_context draft.now orders.now.pars.items par }
    ensures small { result ≤ 2 * MAX_CONTEXTS }
{
    1 + draft.procedures.len() + orders.branches_before[orders.par_places[par]]
}

/// The number of a branch of a row that has its first branch at `first`.
fn branch_number(first: usize, branch: usize, row: &ParRow<Label, ContextName>) -> Option<u16>
    requires { first ≤ 2 * MAX_CONTEXTS }
    ensures { result ≡ branch_number first branch (Some row.now) }
{
    if branch < row.branches.len() {
        nameable(first + branch)
    } else {
        None
    }
}

/// The number of a procedure.
fn procedure_number(draft: &Draft, orders: &Orders, row: usize) -> Option<u16>
    requires { IsNumbered draft.now orders.now }
    ensures { result ≡ context_number draft.now orders.now.procedures.items orders.now.pars.items (Procedure row) }
{
    if row < draft.procedures.len() {
        nameable(1 + orders.procedure_places[row])
    } else {
        None
    }
}

/// The number of a branch.
fn number_of_branch(draft: &Draft, orders: &Orders, par: usize, branch: usize) -> Option<u16>
    requires numbered { IsNumbered draft.now orders.now }
    requires within { DraftIsWithin draft.now }
    ensures { result ≡ context_number draft.now orders.now.procedures.items orders.now.pars.items (Branch par branch) }
{
    match draft.pars.get(par) {
        Some(row) => branch_number(first_context(draft, orders, par), branch, row),
        None => None,
    }
}

/// The number of a context, if there is that context.
pub(crate) fn context_number(draft: &Draft, orders: &Orders, context: ContextName) -> Option<u16>
    requires numbered { IsNumbered draft.now orders.now }
    requires within { DraftIsWithin draft.now }
    ensures { result ≡ context_number draft.now orders.now.procedures.items orders.now.pars.items context }
{
    match context {
        ContextName::Root => Some(0),
        ContextName::Procedure(row) => procedure_number(draft, orders, row),
        ContextName::Branch { par, branch } => number_of_branch(draft, orders, par, branch),
    }
}
