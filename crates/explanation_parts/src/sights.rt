//! What is written of an instruction: its rows, its line and the state there.
#![tactic(auto, unfolding(crate::specs::Rows::context_rows, crate::specs::Rows::rows_text, crate::specs::Sights::known_here, crate::specs::Sights::instruction_text, crate::specs::Sights::sight_text))]

ghost use Rattle.std.specs.Prelude.{◌≡◌, ◌<◌, ◌^◌, ◌++◌, length, OnOk, string_bytes};
ghost use Rattle.states.specs.Views.{state_of};
ghost use Rattle.module_format.specs.Contents.{label_at};
ghost use Rattle.certificate.specs.Starts.{procedure_at};
ghost use Rattle.certificate.specs.Branches.{branch_at};
ghost use Rattle.explanation_parts.specs.Sights.{known_here, instruction_text, sight_text, setting_after};
ghost use Rattle.explanation_parts.specs.Rows.{label_line, procedure_line, branch_line, context_rows, rows_text};
ghost use Rattle.explanation_parts.specs.Seen.{seen};

use certificate::Module;
use fact_texts::{push_context_row, push_label};
use listings::push_line;
use state_texts::{Setting, push_state};
use states::State;
use std::alloc::{AllocError, Global};

/// Appends the row of the label at an offset, if it has one.
fn push_label_at(text: &mut String, module: &Module, at: u32) -> Result<(), AllocError>
    ensures { OnOk result (string_bytes text.new
        ≡ string_bytes text.old ++ label_line «module».now (label_at «module».now at)) }
{
    match module.label_at(at) {
        Some(row) => push_label(text, module.tables(), row),
        None => text.push_str(""),
    }
}

/// Appends the row of the procedure that begins at an offset, if one does.
fn push_procedure_at(text: &mut String, module: &Module, at: u32) -> Result<(), AllocError>
    ensures { OnOk result (string_bytes text.new
        ≡ string_bytes text.old ++ procedure_line «module».now (procedure_at «module».now at)) }
{
    match module.procedure_at(at) {
        Some((context, row)) => push_context_row(text, module.tables(), context, row.entry, row),
        None => text.push_str(""),
    }
}

/// Appends the row of the branch that begins at an offset, if one does.
fn push_branch_at(text: &mut String, module: &Module, at: u32) -> Result<(), AllocError>
    ensures { OnOk result (string_bytes text.new
        ≡ string_bytes text.old ++ branch_line «module».now (branch_at «module».now at)) }
{
    match module.branch_at(at) {
        Some((context, _par, row)) => push_context_row(
            text,
            module.tables(),
            context,
            row.entry,
            row,
        ),
        None => text.push_str(""),
    }
}

/// Appends the rows of the procedure and the branch that begin at an offset.
fn push_context_rows(text: &mut String, module: &Module, at: u32) -> Result<(), AllocError>
    ensures { OnOk result (string_bytes text.new ≡ string_bytes text.old ++ context_rows «module».now at) }
{
    push_procedure_at(text, module, at)?;
    push_branch_at(text, module, at)?;
    Ok(())
}

/// Appends the rows of an offset.
pub fn push_rows(text: &mut String, module: &Module, at: u32) -> Result<(), AllocError>
    ensures { OnOk result (string_bytes text.new ≡ string_bytes text.old ++ rows_text «module».now at) }
{
    push_label_at(text, module, at)?;
    push_context_rows(text, module, at)?;
    Ok(())
}

/// Appends the state at an offset, if there is one.
fn push_known(
    text: &mut String,
    module: &Module,
    before: Setting,
    state: Option<&State>,
) -> Result<(), AllocError>
    ensures { OnOk result (string_bytes text.new
        ≡ string_bytes text.old ++ known_here «module».now before (seen state.entry)) }
{
    match state {
        Some(state) => push_state(text, module.tables(), before, state),
        None => text.push_str("       nothing leads here\n"),
    }
}

/// Appends the instruction at an offset, and the state there.
fn push_instruction(
    alloc: Global,
    text: &mut String,
    module: &Module,
    at: usize,
    before: Setting,
    state: Option<&State>,
) -> Result<(), AllocError>
    requires { at < length «module».now.code }
    ensures { OnOk result (string_bytes text.new
        ≡ string_bytes text.old ++ instruction_text «module».now at before (seen state.entry)) }
{
    let _size = push_line(alloc, text, module.tables(), at)?;
    push_known(text, module, before, state)?;
    Ok(())
}

/// Appends the rows of an offset, its instruction and the state there.
pub fn push_sight(
    alloc: Global,
    text: &mut String,
    module: &Module,
    at: usize,
    before: Setting,
    state: Option<&State>,
) -> Result<(), AllocError>
    requires { at < length «module».now.code }
    ensures { OnOk result (string_bytes text.new
        ≡ string_bytes text.old ++ sight_text «module».now at before (seen state.entry)) }
{
    let _kept = module.tables();
    push_rows(text, module, at as u32)?;
    push_instruction(alloc, text, module, at, before, state)?;
    Ok(())
}

/// The setting after an instruction.
pub fn setting_after(before: Setting, state: Option<&State>) -> Setting
    ensures { result ≡ setting_after before (seen state.entry) }
{
    match state {
        Some(state) => Setting::of(state),
        None => before,
    }
}
