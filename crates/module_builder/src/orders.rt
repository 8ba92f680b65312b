//! The orders of a draft's rows.

use crate::branches::branches_before;
use crate::draft::Draft;
use crate::layouts::Layout;
use crate::ordering::places_in;
use crate::rows::order_of_rows;
use std::alloc::{AllocError, Global};

/// The order of the rows of each kind in a file: each row by its key and its number in the draft.
#[derive(Drop)]
pub(crate) struct Orders {
    pub(crate) procedures: Vec<(u32, usize)>,
    pub(crate) labels: Vec<(u32, usize)>,
    pub(crate) pars: Vec<(u32, usize)>,
    pub(crate) table_rows: Vec<(u32, usize)>,
    /// By procedure row: how many rows are before it in the order.
    pub(crate) procedure_places: Vec<usize>,
    /// By PAR row: the same.
    pub(crate) par_places: Vec<usize>,
    /// By place in the order of PAR rows: how many branches the rows before it have.
    pub(crate) branches_before: Vec<usize>,
}

impl Orders {
    ghost use Rattle.std.specs.Prelude.{IfOk};
    ghost use Rattle.module_builder.specs.Limits.{DraftIsWithin};
    ghost use Rattle.module_builder.specs.Assembled.{AreInOrder, arrangement_of};
    ghost use Rattle.module_builder.specs.Numbered.{IsNumbered};

    /// The orders of a draft's rows, where its labels are placed so.
    pub(crate) fn of(alloc: Global, draft: &Draft, layout: &Layout) -> Result<Orders, AllocError>
        requires { DraftIsWithin draft.now }
        ensures order { IfOk result (λ o. AreInOrder draft.now layout.now.places.items (arrangement_of layout.now o)) }
        ensures numbered { IfOk result (λ o. IsNumbered draft.now o) }
    {
        let procedures = order_of_rows(alloc, layout, &draft.procedures)?;
        let pars = order_of_rows(alloc, layout, &draft.pars)?;
        Ok(Orders {
            procedure_places: places_in(alloc, &procedures, draft.procedures.len())?,
            par_places: places_in(alloc, &pars, draft.pars.len())?,
            branches_before: branches_before(alloc, &draft.pars, &pars)?,
            procedures,
            labels: order_of_rows(alloc, layout, &draft.labels)?,
            pars,
            table_rows: order_of_rows(alloc, layout, &draft.table_rows)?,
        })
    }
}
