//! From a draft to the bytes of its module.

ghost use Rattle.std.specs.Prelude.{◌≡◌, ◌↔◌, IfOk, IsTrue};
ghost use Rattle.module_format.specs.Contents.{contents_of};
ghost use Rattle.module_builder.specs.Layouts.{places, IsLeast};
ghost use Rattle.module_builder.specs.Spelling.{spelled};
ghost use Rattle.module_builder.specs.Limits.{DraftIsWithin};
ghost use Rattle.module_builder.specs.Assembled.{arrangement_of, ContextsAreThere, tables_with, IsWithinLimits};
ghost use Rattle.module_builder.specs.Assembled.{Assembles};
ghost use Rattle.module_builder.specs.Numbered.{IsNumbered};
ghost use Rattle.module_builder.specs.Whole.{IsWhole};

use crate::draft::Draft;
use crate::fault::GenFault;
use crate::layouts::Layout;
use crate::least::layout;
use crate::limits::is_within;
use crate::orders::Orders;
use crate::placing::finish_offset;
use crate::rows::{contexts_are_there, rows_in};
use crate::spelling::spell;
use module_format::{Tables, max_code, write};
use std::alloc::{AllocError, Global};

/// Whether the contexts that the rows of a draft name are there.
fn all_contexts_are_there(draft: &Draft, layout: &Layout, orders: &Orders) -> bool
    requires numbered { IsNumbered draft.now orders.now }
    requires within { DraftIsWithin draft.now }
    ensures { IsTrue result ↔ ContextsAreThere draft.now (arrangement_of layout.now orders.now) }
{
    contexts_are_there(draft, orders, &draft.labels)
        && contexts_are_there(draft, orders, &draft.pars)
}

/// The tables of a draft.
fn tables<'c>(
    alloc: Global,
    draft: &'c Draft,
    layout: &Layout,
    orders: &Orders,
    code: &'c [u8],
) -> Result<Tables<'c>, AllocError>
    requires numbered { IsNumbered draft.now orders.now }
    requires within { DraftIsWithin draft.now }
    requires code { code.now ≡ spelled draft.now.code layout.now.lengths.items }
    ensures contents { IfOk result (λ t. contents_of t
        ≡ tables_with draft.now (arrangement_of layout.now orders.now) layout.now.places.items) }
    ensures version { IfOk result (λ t. t.version ≡ draft.now.version) }
{
    Ok(Tables {
        version: draft.version,
        code,
        constants: &draft.constants,
        data_words: draft.data_words,
        base: draft.base,
        budget: draft.budget,
        finish: finish_offset(layout, draft.finish),
        lengths: draft.lengths,
        has_long_operations: draft.has_long_operations,
        procedures: rows_in(
            alloc,
            draft,
            layout,
            orders,
            &draft.procedures,
            &orders.procedures,
        )?,
        labels: rows_in(alloc, draft, layout, orders, &draft.labels, &orders.labels)?,
        pars: rows_in(alloc, draft, layout, orders, &draft.pars, &orders.pars)?,
        table_rows: rows_in(
            alloc,
            draft,
            layout,
            orders,
            &draft.table_rows,
            &orders.table_rows,
        )?,
    })
}

/// The file of a draft that is within the limits, under its least layout.
fn file(alloc: Global, draft: &Draft, layout: &Layout, code: &[u8]) -> Result<Vec<u8>, GenFault>
    requires within { IsWithinLimits draft.now layout.now.lengths.items }
    requires least { IsLeast draft.now.code layout.now.lengths.items }
    requires places { layout.now.places.items ≡ places draft.now.code layout.now.lengths.items }
    requires code { code.now ≡ spelled draft.now.code layout.now.lengths.items }
    ensures { Assembles (λ v. v.items) draft.now result }
{
    let orders = Orders::of(alloc, draft, layout)?;
    let tables = tables(alloc, draft, layout, &orders, code)?;
    if !all_contexts_are_there(draft, layout, &orders) {
        return Err(GenFault::Invalid);
    }
    if !tables.keeps() {
        return Err(GenFault::Invalid);
    }
    Ok(write(alloc, &tables)?)
}

/// The module file of a draft. Its code is the instructions in their order, each as long as the least layout has it.
/// Procedure rows are ordered by their entries, label rows by their offsets, PAR rows by the entries of their first
/// branches and table rows by their starts, those at one place in the order of adding. Lists inside a row stay as they
/// are. Contexts have the numbers that follow from the order.
///
/// # Errors
///
/// `Limit` if no layout fits, if a number or the length of a list is above a limit of the format, or if there are
/// more contexts than [`MAX_CONTEXTS`](crate::MAX_CONTEXTS); `Invalid` if the tables are not valid otherwise, or a
/// row names a context that is not there; `Memory` if memory runs out.
pub fn assemble(alloc: Global, draft: &Draft) -> Result<Vec<u8>, GenFault>
    requires { IsWhole draft.now }
    ensures { Assembles (λ v. v.items) draft.now result }
{
    if !is_within(draft) {
        return Err(GenFault::Limit);
    }
    let layout = layout(alloc, draft)?;
    let code = spell(alloc, draft, &layout)?;
    if code.len() > max_code(draft.version) as usize {
        return Err(GenFault::Limit);
    }
    file(alloc, draft, &layout, &code)
}
