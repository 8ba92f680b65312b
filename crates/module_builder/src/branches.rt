//! The branches of PAR rows in an order.

ghost use Rattle.std.specs.Prelude.{◌≡◌, ◌≤◌, IfOk, length, slice_get};
ghost use Rattle.std.specs.List.{AllByRecursion};
ghost use Rattle.std.specs.Option.{option_to_list};
ghost use Rattle.module_builder.specs.Limits.{ParIsWithin, branch_count};
ghost use Rattle.module_builder.specs.Numbered.{AreSums};

use crate::draft::ContextName;
use crate::item::Label;
use module_format::{MAX_BRANCHES, MAX_PARS, ParRow};
use std::alloc::{AllocError, Global};

/// How many branches a row has; 0 if there is no such row.
fn branches_of(rows: &[ParRow<Label, ContextName>], number: usize) -> usize
    requires { AllByRecursion ParIsWithin rows.now }
    ensures value { result ≡ branch_count (option_to_list (slice_get rows.now number)) }
    ensures small { result ≤ MAX_BRANCHES }
{
    match rows.get(number) {
        Some(row) => row.branches.len(),
        None => 0,
    }
}

/// By place in an order: how many branches the rows before it have.
pub(crate) fn branches_before(
    alloc: Global,
    rows: &[ParRow<Label, ContextName>],
    order: &[(u32, usize)],
) -> Result<Vec<usize>, AllocError>
    requires few { length order.now ≤ MAX_PARS }
    requires within { AllByRecursion ParIsWithin rows.now }
    ensures { IfOk result (λ v. AreSums rows.now order.now (length order.now) v.items) }
{
    let mut sums = Vec::with_capacity(alloc, order.len() + 1)?;
    let mut count = 0;
    sums.push(count)?;
    for pair in order {
        count += branches_of(rows, pair.1);
        sums.push(count)?;
    }
    Ok(sums)
}
