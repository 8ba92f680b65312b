//! The rows of a module, in words: a line for each.

ghost use Rattle.std.specs.Prelude.{◌≡◌, ◌++◌, OnOk, Some, string_bytes};
ghost use Rattle.module_format.specs.Contents.{branch_of, contents_of, label_of, procedure_of};
ghost use Rattle.fact_texts.specs.Texts.{Text};
ghost use Rattle.fact_texts.specs.RowTexts.{context_name, context_text, registers_text, is_unknown, label_head};
ghost use Rattle.fact_texts.specs.RowTexts.{label_text, gifts_text, list_text, list_part, entered_text};
ghost use Rattle.fact_texts.specs.RowTexts.{context_line, frame_and_number, procedure_rest, branch_rest};

use crate::facts::FactText;
use crate::items::{Item, push_items};
use module_format::{BranchRow, Fact, LabelRow, ProcedureRow, Stack, Tables};
use std::alloc::AllocError;
use std::fmt;

/// A context by its number: the root, then procedures, and from the first branch on branches.
#[derive(Clone, Copy)]
pub struct ContextText {
    pub first_branch: usize,
    pub number: u32,
}

impl fmt::Display for ContextText {
    ghost output = { λ context. Some (context_name context.first_branch context.number) };

    fn fmt<W: fmt::Write>(&self, f: &mut fmt::Formatter<W>) -> fmt::Result {
        let ContextText {
            first_branch,
            number,
        } = *self;
        if number == 0 {
            return write!(f, "root");
        }
        if (number as usize) < first_branch {
            return write!(f, "procedure {number}");
        }
        write!(f, "branch {number}")
    }
}

/// A context of a module.
pub fn context_text(tables: &Tables<'_>, number: u32) -> ContextText
    ensures { context_name result.first_branch result.number ≡ context_text (contents_of tables.now) number }
{
    ContextText {
        first_branch: tables.first_branch(),
        number,
    }
}

/// A register by its name, if something is known of it.
#[derive(Clone, Copy)]
struct RegisterText {
    name: &'static str,
    fact: Fact,
}

/// Whether nothing is known.
pub fn is_unknown(fact: Fact) -> bool
    ensures { result ≡ is_unknown fact }
{
    matches!(fact, Fact::Unknown)
}

impl fmt::Display for RegisterText {
    ghost use Rattle.fact_texts.specs.RowTexts.{register_text};

    ghost output = { λ register. Some (register_text register.name.now register.fact) };

    fn fmt<W: fmt::Write>(&self, f: &mut fmt::Formatter<W>) -> fmt::Result {
        let RegisterText { name, fact } = *self;
        if is_unknown(fact) {
            return write!(f, "");
        }
        write!(f, ", {name} {}", FactText(fact))
    }
}

/// Appends the registers of which something is known.
#[tactic(auto, unfolding(crate::specs::RowTexts::registers_text))]
fn push_registers(text: &mut String, stack: Stack<Fact>) -> Result<(), AllocError>
    ensures { OnOk result (string_bytes text.new ≡ string_bytes text.old ++ registers_text stack) }
{
    let a = RegisterText {
        name: "A",
        fact: stack.a,
    };
    let b = RegisterText {
        name: "B",
        fact: stack.b,
    };
    let c = RegisterText {
        name: "C",
        fact: stack.c,
    };
    write!(text, "{a}{b}{c}")
}

/// Appends what a line says of a label before its registers.
#[tactic(auto, using(crate::proofs::SixDigits::six_digits_written), unfolding(crate::specs::RowTexts::label_head))]
fn push_label_head(text: &mut String, tables: &Tables<'_>, row: &LabelRow) -> Result<(), AllocError>
    ensures { OnOk result (string_bytes text.new
        ≡ string_bytes text.old ++ label_head (contents_of tables.now) (label_of row.now)) }
{
    let context = context_text(tables, u32::from(row.context));
    let LabelRow {
        offset,
        depth,
        number,
        ..
    } = *row;
    write!(
        text,
        "{offset:06} label: {context}, depth {depth}, number {number}"
    )
}

/// Appends the line of a label.
pub fn push_label(text: &mut String, tables: &Tables<'_>, row: &LabelRow) -> Result<(), AllocError>
    ensures { OnOk result (string_bytes text.new
        ≡ string_bytes text.old ++ label_text (contents_of tables.now) (label_of row.now)) }
{
    push_label_head(text, tables, row)?;
    push_registers(text, row.stack)?;
    push_items(text, &row.entries)?;
    text.push_str("\n")?;
    Ok(())
}

/// Appends a list, after the words for it.
#[tactic(auto, unfolding(crate::specs::RowTexts::list_text))]
fn push_some<T: Item>(text: &mut String, words: &str, items: &[T]) -> Result<(), AllocError>
    ensures { OnOk result (string_bytes text.new ≡ string_bytes text.old ++ list_text words.now T.text_of items.now) }
{
    text.push_str(words)?;
    push_items(text, items)?;
    Ok(())
}

/// Appends the same, unless the list is empty.
#[tactic(auto, unfolding(crate::specs::RowTexts::list_part))]
fn push_list<T: Item>(text: &mut String, words: &str, items: &[T]) -> Result<(), AllocError>
    ensures { OnOk result (string_bytes text.new ≡ string_bytes text.old ++ list_part words.now T.text_of items.now) }
{
    if items.is_empty() {
        return text.push_str("");
    }
    push_some(text, words, items)
}

/// Appends what a branch is given.
fn push_gifts(text: &mut String, row: &BranchRow) -> Result<(), AllocError>
    ensures { OnOk result (string_bytes text.new ≡ string_bytes text.old ++ gifts_text (branch_of row.now)) }
{
    push_list(text, "; writes words", &row.writes)?;
    push_list(text, "; reads words", &row.reads)?;
    push_list(text, "; writes parameters", &row.written_parameters)?;
    push_list(text, "; reads parameters", &row.read_parameters)?;
    push_list(text, "; ends", &row.ends)?;
    Ok(())
}

/// Appends what the line of a context begins with: the offset at which it is entered, and its name.
#[tactic(auto, using(crate::proofs::SixDigits::six_digits_written), unfolding(crate::specs::RowTexts::entered_text))]
fn push_entered(text: &mut String, context: ContextText, entry: u32) -> Result<(), AllocError>
    ensures { let name = context_name context.first_branch context.number in
        OnOk result (string_bytes text.new ≡ string_bytes text.old ++ entered_text name entry) }
{
    write!(text, "{entry:06} {context}: ")
}

/// A row of a context: of a procedure, or of a branch.
pub trait ContextRow {
    ghost rest_of: { Self → Text };

    /// Appends what its line says after the offset at which the context is entered, and its name.
    fn push_rest(&self, text: &mut String) -> Result<(), AllocError>
        ensures { OnOk result (string_bytes text.new ≡ string_bytes text.old ++ rest_of self.now) };
}

/// Appends the line of a procedure or a branch, by the number of its context and the offset at which that is entered.
pub fn push_context_row<R: ContextRow>(
    text: &mut String,
    tables: &Tables<'_>,
    context: u32,
    entry: u32,
    row: &R,
) -> Result<(), AllocError>
    ensures { OnOk result (string_bytes text.new ≡ string_bytes text.old
        ++ context_line (contents_of tables.now) context entry (R.rest_of row.now)) }
{
    push_entered(text, context_text(tables, context), entry)?;
    row.push_rest(text)?;
    text.push_str("\n")?;
    Ok(())
}

/// Appends the bounds of a procedure's frame, and its number.
#[tactic(auto, unfolding(crate::specs::RowTexts::frame_and_number))]
fn push_frame_and_number(text: &mut String, row: &ProcedureRow) -> Result<(), AllocError>
    ensures { OnOk result (string_bytes text.new
        ≡ string_bytes text.old ++ frame_and_number (procedure_of row.now)) }
{
    let ProcedureRow { lo, hi, number, .. } = *row;
    write!(text, "frame from {lo} up to {hi}, number {number}")
}

impl ContextRow for ProcedureRow {
    ghost rest_of = { λ row. procedure_rest (procedure_of row) };

    fn push_rest(&self, text: &mut String) -> Result<(), AllocError> {
        push_frame_and_number(text, self)?;
        push_items(text, &self.parameters)?;
        Ok(())
    }
}

impl ContextRow for BranchRow {
    ghost rest_of = { λ row. branch_rest (branch_of row) };

    fn push_rest(&self, text: &mut String) -> Result<(), AllocError> {
        write!(text, "workspace {}", self.workspace)?;
        push_gifts(text, self)?;
        Ok(())
    }
}
