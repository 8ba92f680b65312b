//! The rows of a file, in their order.

ghost use Rattle.std.specs.Prelude.{◌≡◌, ◌↔◌, IfOk, IsTrue, length, map};
ghost use Rattle.std.specs.List.{AllByRecursion};
ghost use Rattle.module_builder.specs.Limits.{DraftIsWithin};
ghost use Rattle.module_builder.specs.Ordering.{IsOrder, rows_in};
ghost use Rattle.module_builder.specs.Assembled.{IsThere, number_in, arrangement_of};
ghost use Rattle.module_builder.specs.Numbered.{IsNumbered};

use crate::draft::Draft;
use crate::kinds::Row;
use crate::layouts::Layout;
use crate::numbers::context_number;
use crate::ordering::order_of;
use crate::orders::Orders;
use std::alloc::{AllocError, Global};

/// The numbers by which a file orders rows.
fn keys<R: Row>(alloc: Global, layout: &Layout, rows: &[R]) -> Result<Vec<u32>, AllocError>
    ensures { IfOk result (λ v. v.items ≡ map (R.kind.key layout.now.places.items) rows.now) }
{
    rows.iter().map(|row| row.key(layout)).collect(alloc)
}

/// The order of rows in a file: each by its key and its number in the draft.
pub(crate) fn order_of_rows<R: Row>(
    alloc: Global,
    layout: &Layout,
    rows: &[R],
) -> Result<Vec<(u32, usize)>, AllocError>
    ensures order { IfOk result (λ v. IsOrder (map (R.kind.key layout.now.places.items) rows.now) v.items) }
    ensures len { IfOk result (λ v. length v.items ≡ length rows.now) }
{
    order_of(alloc, &keys(alloc, layout, rows)?)
}

/// Whether the contexts that rows name are there.
pub(crate) fn contexts_are_there<R: Row>(draft: &Draft, orders: &Orders, rows: &[R]) -> bool
    requires numbered { IsNumbered draft.now orders.now }
    requires within { DraftIsWithin draft.now }
    ensures { IsTrue result
        ↔ AllByRecursion
        (λ row. IsThere draft.now orders.now.procedures.items orders.now.pars.items (R.kind.context row)) rows.now }
{
    for row in rows {
        if context_number(draft, orders, row.context()).is_none() {
            return false;
        }
    }
    true
}

/// The rows of a file, from those of a draft in an order.
pub(crate) fn rows_in<R: Row>(
    alloc: Global,
    draft: &Draft,
    layout: &Layout,
    orders: &Orders,
    rows: &[R],
    order: &[(u32, usize)],
) -> Result<Vec<R::Placed>, AllocError>
    requires numbered { IsNumbered draft.now orders.now }
    requires within { DraftIsWithin draft.now }
    ensures { IfOk result (λ v. map R.kind.view v.items
        ≡ map (λ row. R.kind.placed layout.now.places.items
        (number_in draft.now (arrangement_of layout.now orders.now) (R.kind.context row)) row)
        (rows_in order.now rows.now)) }
{
    let mut sorted = Vec::with_capacity(alloc, order.len())?;
    for pair in order {
        if let Some(row) = rows.get(pair.1) {
            let context = context_number(draft, orders, row.context()).unwrap_or(0);
            sorted.push(row.placed(alloc, layout, context)?)?;
        }
    }
    Ok(sorted)
}
