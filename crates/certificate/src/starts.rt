//! Where instructions start.

ghost use Rattle.std.specs.Prelude.{◌≡◌, IfOk};
ghost use Rattle.module_format.specs.Contents.{contents_of};
ghost use Rattle.certificate.specs.Starts.{AreStarts};

use crate::marks::{Marks, mark_all};
use module_format::Tables;
use std::alloc::{AllocError, Global};

/// Marks where the tables say that an instruction starts.
pub(crate) fn starts_of(alloc: Global, tables: &Tables) -> Result<Marks, AllocError>
    ensures { IfOk result (λ marks. AreStarts marks (contents_of tables.now)) }
{
    let mut marks = Marks::new(alloc);
    mark_all(&tables.labels, &mut marks)?;
    mark_all(&tables.procedures, &mut marks)?;
    mark_all(&tables.pars, &mut marks)?;
    Ok(marks)
}
