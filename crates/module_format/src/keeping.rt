//! Whether tables are valid: they keep the rules of the format, and fit their version.

mod labels;
mod list;
mod pars;
mod procedures;
mod versions;

ghost use Rattle.std.specs.Prelude.{◌≡◌, ◌↔◌, ◌≤◌, IsTrue, map, length};
ghost use Rattle.std.specs.List.{AllByRecursion};
ghost use Rattle.module_format.specs.Contents.{contents_of, label_of, procedure_of};
ghost use Rattle.module_format.specs.Facts.{LabelKeeps, behind_label};
ghost use Rattle.module_format.specs.Offsets.{ProceduresRise};
ghost use Rattle.module_format.specs.Order.{InOrder, IsBytes};
ghost use Rattle.module_format.specs.Keeping.{SizesKeep, BoundsKeep, LimitsKeep, RowsKeep, NamesAreThere, Keeps};
ghost use Rattle.module_format.specs.Keeping.{FitsVersion};

use crate::contexts::Contexts;
pub(crate) use crate::keeping::labels::{facts_keep, offset_keeps, word_keeps};
pub(crate) use crate::keeping::list::all_keep;
pub(crate) use crate::keeping::pars::end_kind_keeps;
use crate::keeping::pars::pars_keep;
pub(crate) use crate::keeping::procedures::kind_keeps;
use crate::keeping::versions::fits_version;
use crate::limits::{
    MAX_BUDGET, MAX_CONSTANTS, MAX_DATA_WORDS, MAX_LABELS, MAX_LONG_CODE, MAX_MESSAGE, MAX_PARS,
    MAX_PROCEDURES, MAX_TABLES,
};
use crate::listed::{Code, Constants, Labelled};
use crate::reading::rows_references;
use crate::row_owners::row_owners;
use crate::rows::{LabelRow, ProcedureRow};
use crate::tables::Tables;

/// Whether there are no more bytes than a limit.
fn is_within(bytes: &[u8], limit: u32) -> bool
    ensures within { IsTrue result ↔ (length bytes.now ≤ limit) }
    ensures bytes { IsBytes bytes.now }
{
    bytes.len() <= limit as usize
}

/// The numbers of the code, the constants and the data area.
fn sizes_keep(tables: &Tables) -> bool
    ensures sizes { IsTrue result ↔ SizesKeep (contents_of tables.now) }
    ensures code { IsBytes (contents_of tables.now).code }
    ensures constants { IsBytes (contents_of tables.now).constants }
{
    let code_fits = is_within(tables.code, MAX_LONG_CODE);
    let constants_fit = is_within(tables.constants, MAX_CONSTANTS);
    code_fits
        && constants_fit
        && !tables.code.is_empty()
        && tables.data_words > 0
        && tables.data_words <= MAX_DATA_WORDS
        && tables.base <= tables.data_words
}

/// The other numbers of the header.
fn bounds_keep(tables: &Tables) -> bool
    ensures { IsTrue result ↔ BoundsKeep (contents_of tables.now) }
{
    tables.budget <= MAX_BUDGET
        && tables.finish as usize <= tables.code.len()
        && lengths_keep(&tables.lengths)
}

/// Each length is that of a message.
fn lengths_keep(lengths: &[u32]) -> bool
    ensures { IsTrue result ↔ AllByRecursion (λ n. n ≤ MAX_MESSAGE) lengths.now }
{
    lengths.iter().all(|length| *length <= MAX_MESSAGE)
}

/// The numbers of rows.
fn limits_keep(tables: &Tables) -> bool
    ensures { IsTrue result ↔ LimitsKeep (contents_of tables.now) }
{
    tables.procedures.len() <= MAX_PROCEDURES as usize
        && tables.labels.len() <= MAX_LABELS as usize
        && tables.pars.len() <= MAX_PARS as usize
        && tables.table_rows.len() <= MAX_TABLES as usize
}

/// The label rows.
fn labels_keep(code_len: usize, procedures: &[ProcedureRow], rows: &[LabelRow]) -> bool
    requires { ProceduresRise procedures.now }
    ensures { IsTrue result
        ↔ InOrder (LabelKeeps code_len (map procedure_of procedures.now)) behind_label 0 (map label_of rows.now) }
{
    let code = Labelled {
        code_len,
        procedures,
    };
    all_keep(&code, 0, rows)
}

/// The rows, each by itself.
fn rows_keep(tables: &Tables) -> bool
    requires sizes { SizesKeep (contents_of tables.now) }
    requires limits { LimitsKeep (contents_of tables.now) }
    ensures { IsTrue result ↔ RowsKeep (contents_of tables.now) }
{
    let code_len = tables.code.len();
    let code = Code {
        version: tables.version,
        len: code_len,
    };
    all_keep(&code, 0, &tables.procedures)
        && labels_keep(code_len, &tables.procedures, &tables.labels)
        && pars_keep(tables.first_branch(), code_len, &tables.pars)
        && all_keep(&Constants(tables.constants), 0, &tables.table_rows)
}

/// What the rows name is there.
fn names_are_there(tables: &Tables) -> bool
    requires limits { LimitsKeep (contents_of tables.now) }
    requires rows { RowsKeep (contents_of tables.now) }
    ensures { IsTrue result ↔ NamesAreThere (contents_of tables.now) }
{
    let owners = row_owners(tables);
    rows_references(&Contexts::of_rows(tables, &owners), 0).is_ok()
}

/// The rules of the format.
fn rules_keep(tables: &Tables) -> bool
    ensures { IsTrue result ↔ Keeps (contents_of tables.now) }
{
    sizes_keep(tables)
        && bounds_keep(tables)
        && limits_keep(tables)
        && rows_keep(tables)
        && names_are_there(tables)
}

/// Whether tables are valid: they keep the rules of the format, and fit their version.
pub fn keeps(tables: &Tables) -> bool
    ensures { IsTrue result ↔ Keeps (contents_of tables.now) × FitsVersion tables.now.version (contents_of tables.now) }
{
    fits_version(tables) && rules_keep(tables)
}
