//! The offsets and the words of the frame that an instruction uses, and where workspaces are.

ghost use Rattle.std.specs.Prelude.{◌≡◌, ◌<◌, ◌^◌, pos, ◌+ℤ◌, ◌*ℤ◌, ◌++◌, OnOk, string_bytes};
ghost use Rattle.certificate.specs.Branches.{branch_at};
ghost use Rattle.module_format.specs.Contents.{contents_of};
ghost use Rattle.module_format.specs.Contexts.{context_at};
ghost use Rattle.states.specs.Views.{state_of};
ghost use Rattle.explanation_parts.specs.Places.{offset_found, signed_text, phrase, target_words, target_found};
ghost use Rattle.explanation_parts.specs.Places.{word_words, word_of, word_found, lo_words, hi_words, bounds_text};
ghost use Rattle.explanation_parts.specs.Places.{bounds_part, place_found, workspace_words, branch_started};
ghost use Rattle.explanation_parts.specs.Places.{workspace_text, workspace_found};

use certificate::Module;
use fact_texts::context_text;
use machine_state::Instruction;
use module_format::{Context, Tables};
use prefix_decoder::Instr;
use states::State;
use std::alloc::AllocError;

/// An instruction of the machine where it stands.
#[derive(Clone, Copy)]
pub struct Spot {
    pub instruction: Instruction,
    pub instr: Instr,
    /// The offset after it.
    pub next: usize,
}

/// The offset of a word of the frame.
fn offset_of(depth: i32, operand: i32) -> i64
    ensures { result ≡ pos 4 *ℤ (depth +ℤ operand) }
{
    4 * (i64::from(depth) + i64::from(operand))
}

/// Appends the offset of a word of the frame.
#[tactic(auto, unfolding(crate::specs::Places::offset_found))]
pub fn push_offset(text: &mut String, depth: i32, operand: i32) -> Result<(), AllocError>
    ensures { OnOk result (string_bytes text.new ≡ string_bytes text.old ++ offset_found depth operand) }
{
    let offset = offset_of(depth, operand);
    write!(text, "the offset is {offset}")
}

/// The offset to which an instruction leads.
fn target_of(next: usize, operand: i32) -> i64
    requires { next < 2 ^ 32 }
    ensures { result ≡ pos next +ℤ operand }
{
    next as i64 + i64::from(operand)
}

/// Appends a number.
#[tactic(auto, unfolding(crate::specs::Places::signed_text))]
fn push_signed(text: &mut String, number: i64) -> Result<(), AllocError>
    ensures { OnOk result (string_bytes text.new ≡ string_bytes text.old ++ signed_text number) }
{
    write!(text, "{number}")
}

/// Appends words and a number.
#[tactic(auto, unfolding(crate::specs::Places::phrase))]
fn push_phrase(text: &mut String, words: &str, number: i64) -> Result<(), AllocError>
    ensures { OnOk result (string_bytes text.new ≡ string_bytes text.old ++ phrase words.now number) }
{
    text.push_str(words)?;
    push_signed(text, number)?;
    Ok(())
}

/// What is said of the offset to which an instruction leads.
#[tactic(auto, unfolding(crate::specs::Places::target_words))]
fn target_words() -> &'static str
    ensures { result.now ≡ target_words }
{
    "it leads to "
}

/// Appends the offset to which an instruction leads.
#[tactic(auto, unfolding(crate::specs::Places::target_found))]
pub(crate) fn push_target(text: &mut String, next: usize, operand: i32) -> Result<(), AllocError>
    requires { next < 2 ^ 32 }
    ensures { OnOk result (string_bytes text.new ≡ string_bytes text.old ++ target_found next operand) }
{
    push_phrase(text, target_words(), target_of(next, operand))
}

/// The word of the frame at a distance from the workspace.
fn word_at(depth: i32, operand: i32) -> i64
    ensures { result ≡ depth +ℤ operand }
{
    i64::from(depth) + i64::from(operand)
}

/// What is said of the word that is used, or of the workspace.
#[tactic(auto, unfolding(crate::specs::Places::word_words))]
fn word_words(instruction: Instruction) -> &'static str
    ensures { result.now ≡ word_words instruction }
{
    match instruction {
        Instruction::LoadLocal | Instruction::StoreLocal => "it is word ",
        Instruction::AdjustWorkspace => "it would be at word ",
        _ => "the workspace is at word ",
    }
}

/// The word that is used, or where the workspace is or would be.
#[tactic(auto, unfolding(crate::specs::Places::word_of))]
fn word_of(instruction: Instruction, depth: i32, operand: i32) -> i64
    ensures { result ≡ word_of instruction depth operand }
{
    match instruction {
        Instruction::LoadLocal | Instruction::StoreLocal | Instruction::AdjustWorkspace => {
            word_at(depth, operand)
        }
        _ => i64::from(depth),
    }
}

/// Appends the word that is used, or where the workspace is or would be.
#[tactic(auto, unfolding(crate::specs::Places::word_found))]
fn push_word(
    text: &mut String,
    instruction: Instruction,
    depth: i32,
    operand: i32,
) -> Result<(), AllocError>
    ensures { OnOk result (string_bytes text.new
        ≡ string_bytes text.old ++ word_found instruction depth operand) }
{
    let word = word_of(instruction, depth, operand);
    push_phrase(text, word_words(instruction), word)
}

/// What is said of the first word of a frame.
#[tactic(auto, unfolding(crate::specs::Places::lo_words))]
fn lo_words() -> &'static str
    ensures { result.now ≡ lo_words }
{
    "; frame from "
}

/// What is said of the word after a frame.
#[tactic(auto, unfolding(crate::specs::Places::hi_words))]
fn hi_words() -> &'static str
    ensures { result.now ≡ hi_words }
{
    " up to "
}

/// Appends the bounds of a frame.
#[tactic(auto, unfolding(crate::specs::Places::bounds_text))]
fn push_bounds_text(text: &mut String, lo: i64, hi: i64) -> Result<(), AllocError>
    ensures { OnOk result (string_bytes text.new ≡ string_bytes text.old ++ bounds_text lo hi) }
{
    push_phrase(text, lo_words(), lo)?;
    push_phrase(text, hi_words(), hi)?;
    Ok(())
}

/// Appends the frame of a context.
#[tactic(auto, unfolding(crate::specs::Places::bounds_part))]
fn push_bounds(text: &mut String, bounds: Option<Context>) -> Result<(), AllocError>
    ensures { OnOk result (string_bytes text.new ≡ string_bytes text.old ++ bounds_part bounds) }
{
    match bounds {
        Some(frame) => push_bounds_text(text, frame.lo, frame.hi),
        None => text.push_str(""),
    }
}

/// Appends the word that is used with this workspace, or where it is or would be, and the frame of a context.
fn push_word_in_frame(
    text: &mut String,
    module: &Module,
    spot: Spot,
    depth: i32,
    context: u32,
) -> Result<(), AllocError>
    ensures { OnOk result (string_bytes text.new ≡ string_bytes text.old
        ++ (word_found spot.instruction depth spot.instr.operand ++ bounds_part (context_at «module».now context))) }
{
    push_word(text, spot.instruction, depth, spot.instr.operand)?;
    push_bounds(text, module.context(context))?;
    Ok(())
}

/// The same of the workspace and the context of a state.
#[tactic(auto, unfolding(crate::specs::Places::place_found))]
pub fn push_place(
    text: &mut String,
    module: &Module,
    spot: Spot,
    state: &State,
) -> Result<(), AllocError>
    ensures { OnOk result (string_bytes text.new ≡ string_bytes text.old
        ++ place_found «module».now spot.instruction spot.instr.operand (state_of state.now)) }
{
    push_word_in_frame(text, module, spot, state.depth, state.context)
}

/// What is said of the workspace of a branch.
#[tactic(auto, unfolding(crate::specs::Places::workspace_words))]
fn workspace_words() -> &'static str
    ensures { result.now ≡ workspace_words }
{
    "its workspace is at word "
}

/// Appends which branch is started.
#[tactic(auto, unfolding(crate::specs::Places::branch_started))]
fn push_started(text: &mut String, tables: &Tables<'_>, number: u32) -> Result<(), AllocError>
    ensures { OnOk result (string_bytes text.new
        ≡ string_bytes text.old ++ branch_started (contents_of tables.now) number) }
{
    let context = context_text(tables, number);
    write!(text, "{context} is started; ")
}

/// Appends which branch is started, and where its workspace is.
#[tactic(auto, unfolding(crate::specs::Places::workspace_text))]
fn push_workspace_text(
    text: &mut String,
    tables: &Tables<'_>,
    number: u32,
    word: i64,
) -> Result<(), AllocError>
    ensures { OnOk result (string_bytes text.new
        ≡ string_bytes text.old ++ workspace_text (contents_of tables.now) number word) }
{
    push_started(text, tables, number)?;
    push_phrase(text, workspace_words(), word)?;
    Ok(())
}

/// Appends the same of the branch that begins at an offset.
pub fn push_workspace(text: &mut String, module: &Module, at: u32) -> Result<(), AllocError>
    ensures { OnOk result (string_bytes text.new
        ≡ string_bytes text.old ++ workspace_found «module».now (branch_at «module».now at)) }
{
    match module.branch_at(at) {
        Some((context, _par, row)) => {
            push_workspace_text(text, module.tables(), context, i64::from(row.workspace))
        }
        None => text.push_str("no branch begins there"),
    }
}
