//! What version 1 asks besides the rules of the format.

ghost use Rattle.std.specs.Prelude.{◌≡◌, ◌↔◌, IsTrue};
ghost use Rattle.std.specs.List.{AllByRecursion};
ghost use Rattle.module_format.specs.Contents.{contents_of, procedure_of};
ghost use Rattle.module_format.specs.Keeping.{FitsFirst, FitsVersion};
ghost use Rattle.module_format.specs.Procedures.{RangeFits, KindFits, ProcedureFits};
ghost use Rattle.module_format.specs.declared.rows.Parameter.{Parameter};
ghost use Rattle.module_format.specs.declared.tables.Version.TheVariants as versions;

use crate::limits::MAX_CODE;
use crate::rows::{Parameter, ParameterKind, ProcedureRow};
use crate::tables::{Tables, Version};

/// The range of a region's words is the whole word.
fn is_full(lo: i32, hi: i32) -> bool
    ensures { IsTrue result ↔ RangeFits versions.One lo hi }
{
    lo == i32::MIN && hi == i32::MAX
}

/// What a parameter word holds has no range of its own, if it is a region.
fn kind_fits(kind: &ParameterKind) -> bool
    ensures { IsTrue result ↔ KindFits versions.One kind.now }
{
    match *kind {
        ParameterKind::ReadRegion { lo, hi, .. } => is_full(lo, hi),
        ParameterKind::WrittenRegion { lo, hi, .. } => is_full(lo, hi),
        ParameterKind::Value { .. } | ParameterKind::Channels { .. } => true,
    }
}

/// The parameters of a procedure.
fn parameters_fit(parameters: &[Parameter]) -> bool
    ensures { IsTrue result ↔ AllByRecursion (λ (p : Parameter). KindFits versions.One p.kind) parameters.now }
{
    parameters
        .iter()
        .all(|parameter| kind_fits(&parameter.kind))
}

/// The parameters of procedures.
fn rows_fit(rows: &[ProcedureRow]) -> bool
    ensures { IsTrue result
        ↔ AllByRecursion (λ row. ProcedureFits versions.One (procedure_of row)) rows.now }
{
    rows.iter().all(|row| parameters_fit(&row.parameters))
}

/// The parameters of all procedures.
fn procedures_fit(tables: &Tables) -> bool
    ensures { IsTrue result ↔ AllByRecursion (ProcedureFits versions.One) (contents_of tables.now).procedures }
{
    rows_fit(&tables.procedures)
}

/// What version 1 asks besides.
fn fits_first(tables: &Tables) -> bool
    ensures { IsTrue result ↔ FitsFirst (contents_of tables.now) }
{
    tables.code.len() <= MAX_CODE as usize
        && !tables.has_long_operations
        && tables.table_rows.is_empty()
        && procedures_fit(tables)
}

/// Whether valid tables fit their version.
pub fn fits_version(tables: &Tables) -> bool
    ensures { IsTrue result ↔ FitsVersion tables.now.version (contents_of tables.now) }
{
    match tables.version {
        Version::One => fits_first(tables),
        Version::Two => true,
    }
}
