//! Facts and the fields of label rows.

ghost use Rattle.std.specs.Prelude.{◌≡◌, ◌↔◌, IsTrue, map};
ghost use Rattle.module_format.specs.Contents.{label_of, procedure_of};
ghost use Rattle.module_format.specs.Offsets.{ProceduresRise};
ghost use Rattle.module_format.specs.Facts.{IsPointer, ValueKeeps, RegisterKeeps, WordKeeps, IsLabelOffset, FactsKeep};

use crate::fact::{Fact, Region, Step};
use crate::keeping::list::all_keep;
use crate::offsets::is_entry;
use crate::reading::LEAST_WORD;
use crate::rows::{LabelRow, ProcedureRow};
use crate::rules::{is_loop_length, is_stepped, lies_after};

/// A pointer's region, bounds and step.
fn pointer_keeps(region: Region, lo: i32, hi: i32, step: Step) -> bool
    ensures { IsTrue result ↔ IsPointer region lo hi step }
{
    region.has_number()
        && lo <= hi
        && match step {
            Step::Byte => true,
            Step::Word => is_stepped(lo) && is_stepped(hi),
        }
}

/// A fact of a value, which a register and a frame word may have.
fn value_keeps(code_len: usize, fact: &Fact) -> bool
    ensures { IsTrue result ↔ ValueKeeps code_len fact.now }
{
    match *fact {
        Fact::Number { lo, hi } => lo <= hi,
        Fact::Pointer {
            region,
            lo,
            hi,
            step,
        } => pointer_keeps(region, lo, hi, step),
        Fact::CodeAddress { offset } => offset as usize <= code_len,
        Fact::Unknown | Fact::Loop { .. } | Fact::ReturnAddress => false,
    }
}

/// A fact of a register.
fn register_keeps(code_len: usize, fact: &Fact) -> bool
    ensures { IsTrue result ↔ RegisterKeeps code_len fact.now }
{
    matches!(*fact, Fact::Unknown) || value_keeps(code_len, fact)
}

/// A fact of `span` frame words.
pub(crate) fn word_keeps(code_len: usize, span: u32, fact: &Fact) -> bool
    ensures { IsTrue result ↔ WordKeeps code_len span fact.now }
{
    match *fact {
        Fact::Loop {
            base,
            count,
            weight: _weight,
        } => span == 2 && is_loop_length(base, count),
        Fact::ReturnAddress => span == 1,
        _ => value_keeps(code_len, fact),
    }
}

/// The offset of a label row after one at offset `low`.
pub(crate) fn offset_keeps(
    code_len: usize,
    procedures: &[ProcedureRow],
    low: u32,
    offset: u32,
) -> bool
    requires { ProceduresRise procedures.now }
    ensures { IsTrue result ↔ IsLabelOffset code_len (map procedure_of procedures.now) low offset }
{
    lies_after(low, offset, code_len) && !is_entry(procedures, offset)
}

/// The facts of a label row.
pub(crate) fn facts_keep(code_len: usize, row: &LabelRow) -> bool
    ensures { IsTrue result ↔ FactsKeep code_len (label_of row.now) }
{
    register_keeps(code_len, &row.stack.a)
        && register_keeps(code_len, &row.stack.b)
        && register_keeps(code_len, &row.stack.c)
        && row.entries.len() <= usize::from(u16::MAX)
        && all_keep(&code_len, LEAST_WORD, &row.entries)
}
