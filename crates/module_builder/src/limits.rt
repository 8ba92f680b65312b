//! The limits of the format, on a draft.

ghost use Rattle.std.specs.Prelude.{◌≡◌, ◌↔◌, ◌≤◌, IsTrue, length};
ghost use Rattle.std.specs.List.{AllByRecursion};
ghost use Rattle.module_builder.specs.Limits.{KindIsWithin, ProcedureIsWithin, ParIsWithin, branch_count};
ghost use Rattle.module_builder.specs.Limits.{HeaderIsWithin, CountsAreWithin, RowsAreWithin, DraftIsWithin};

use crate::draft::{ContextName, Draft};
use crate::item::Label;
use module_format::{
    MAX_BRANCHES, MAX_BUDGET, MAX_CONSTANTS, MAX_DATA_WORDS, MAX_LABELS, MAX_MESSAGE,
    MAX_PARAMETERS, MAX_PARS, MAX_PROCEDURES, MAX_TABLES, ParRow, ParameterKind, ProcedureRow,
};

/// Contexts: a row names one by a u16.
pub const MAX_CONTEXTS: usize = 65_536;

fn kind_is_within(kind: &ParameterKind) -> bool
    ensures { IsTrue result ↔ KindIsWithin kind.now }
{
    match *kind {
        ParameterKind::Channels { length, .. } => length <= MAX_MESSAGE,
        _ => true,
    }
}

fn procedure_is_within(row: &ProcedureRow<Label>) -> bool
    ensures { IsTrue result ↔ ProcedureIsWithin row.now }
{
    row.parameters.len() <= usize::from(MAX_PARAMETERS)
        && row
            .parameters
            .iter()
            .all(|parameter| kind_is_within(&parameter.kind))
}

fn par_is_within(row: &ParRow<Label, ContextName>) -> bool
    ensures { IsTrue result ↔ ParIsWithin row.now }
{
    row.branches.len() <= usize::from(MAX_BRANCHES)
        && row
            .channels
            .iter()
            .all(|channel| channel.length <= MAX_MESSAGE)
}

fn procedures_are_within(rows: &[ProcedureRow<Label>]) -> bool
    ensures { IsTrue result ↔ AllByRecursion ProcedureIsWithin rows.now }
{
    rows.iter().all(|row| procedure_is_within(row))
}

fn pars_are_within(rows: &[ParRow<Label, ContextName>]) -> bool
    ensures { IsTrue result ↔ AllByRecursion ParIsWithin rows.now }
{
    rows.iter().all(|row| par_is_within(row))
}

fn header_is_within(draft: &Draft) -> bool
    ensures { IsTrue result ↔ HeaderIsWithin draft.now }
{
    draft.constants.len() <= MAX_CONSTANTS as usize
        && draft.data_words <= MAX_DATA_WORDS
        && draft.budget <= MAX_BUDGET
        && draft.lengths.iter().all(|length| *length <= MAX_MESSAGE)
}

fn counts_are_within(draft: &Draft) -> bool
    ensures { IsTrue result ↔ CountsAreWithin draft.now }
{
    draft.procedures.len() <= MAX_PROCEDURES as usize
        && draft.labels.len() <= MAX_LABELS as usize
        && draft.pars.len() <= MAX_PARS as usize
        && draft.table_rows.len() <= MAX_TABLES as usize
}

/// How many branches PAR rows have.
fn branch_count(rows: &[ParRow<Label, ContextName>]) -> usize
    requires few { length rows.now ≤ MAX_PARS }
    requires within { AllByRecursion ParIsWithin rows.now }
    ensures value { result ≡ branch_count rows.now }
    ensures small { result ≤ MAX_CONTEXTS }
{
    let mut count = 0;
    for row in rows {
        count += row.branches.len();
    }
    count
}

fn rows_are_within(draft: &Draft) -> bool
    ensures { IsTrue result ↔ RowsAreWithin draft.now }
{
    counts_are_within(draft)
        && procedures_are_within(&draft.procedures)
        && pars_are_within(&draft.pars)
        && 1 + draft.procedures.len() + branch_count(&draft.pars) <= MAX_CONTEXTS
}

/// Whether no number of a draft, but the length of its code, is above a limit.
pub(crate) fn is_within(draft: &Draft) -> bool
    ensures { IsTrue result ↔ DraftIsWithin draft.now }
{
    header_is_within(draft) && rows_are_within(draft)
}
