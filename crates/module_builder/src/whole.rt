//! Whether the labels of a draft are all placed.

ghost use Rattle.std.specs.Prelude.{◌≡◌, ◌↔◌, IsTrue};
ghost use Rattle.std.specs.List.{AllByRecursion};
ghost use Rattle.module_builder.specs.Drafts.{IsPlaced};
ghost use Rattle.module_builder.specs.Whole.{FactIsPlaced, FinishIsPlaced, LabelRowIsPlaced, ParIsPlaced, IsWhole};

use crate::draft::{ContextName, Draft};
use crate::instructions::Instructions;
use crate::item::Label;
use module_format::{Fact, LabelRow, ParRow, ProcedureRow};

fn fact_is_placed(code: &Instructions, fact: &Fact<Label>) -> bool
    ensures { IsTrue result ↔ FactIsPlaced code.now fact.now }
{
    match *fact {
        Fact::CodeAddress { offset } => code.is_placed(offset),
        _ => true,
    }
}

fn finish_is_placed(code: &Instructions, finish: Option<Label>) -> bool
    ensures { IsTrue result ↔ FinishIsPlaced code.now finish }
{
    match finish {
        Some(label) => code.is_placed(label),
        None => true,
    }
}

fn label_row_is_placed(code: &Instructions, row: &LabelRow<Label, ContextName>) -> bool
    ensures { IsTrue result ↔ LabelRowIsPlaced code.now row.now }
{
    code.is_placed(row.offset)
        && fact_is_placed(code, &row.stack.a)
        && fact_is_placed(code, &row.stack.b)
        && fact_is_placed(code, &row.stack.c)
        && row
            .entries
            .iter()
            .all(|entry| fact_is_placed(code, &entry.fact))
}

fn par_is_placed(code: &Instructions, row: &ParRow<Label, ContextName>) -> bool
    ensures { IsTrue result ↔ ParIsPlaced code.now row.now }
{
    code.is_placed(row.successor)
        && row
            .branches
            .iter()
            .all(|branch| code.is_placed(branch.entry))
}

fn label_rows_are_placed(code: &Instructions, rows: &[LabelRow<Label, ContextName>]) -> bool
    ensures { IsTrue result ↔ AllByRecursion (LabelRowIsPlaced code.now) rows.now }
{
    for row in rows {
        if !label_row_is_placed(code, row) {
            return false;
        }
    }
    true
}

fn procedures_are_placed(code: &Instructions, rows: &[ProcedureRow<Label>]) -> bool
    ensures { IsTrue result ↔ AllByRecursion (λ row. IsPlaced code.now row.entry) rows.now }
{
    rows.iter().all(|row| code.is_placed(row.entry))
}

fn pars_are_placed(code: &Instructions, rows: &[ParRow<Label, ContextName>]) -> bool
    ensures { IsTrue result ↔ AllByRecursion (ParIsPlaced code.now) rows.now }
{
    rows.iter().all(|row| par_is_placed(code, row))
}

/// Whether each label that an instruction, the header or a row of a draft refers to is placed.
pub fn is_whole(draft: &Draft) -> bool
    ensures { IsTrue result ↔ IsWhole draft.now }
{
    let code = &draft.code;
    code.is_complete()
        && finish_is_placed(code, draft.finish)
        && procedures_are_placed(code, &draft.procedures)
        && label_rows_are_placed(code, &draft.labels)
        && pars_are_placed(code, &draft.pars)
}
