//! The label to which an instruction leads, and what it wants that is not known.

ghost use Rattle.std.specs.Prelude.{◌≡◌, ◌++◌, OnOk, string_bytes};
ghost use Rattle.machine_state.specs.LocalStep.{target};
ghost use Rattle.module_format.specs.Contents.{contents_of, label_at, label_of};
ghost use Rattle.states.specs.Views.{state_of};
ghost use Rattle.explanation_parts.specs.Leads.{turns_back, lead_of, lack_text, lack_part, lack_at, lead_lack, after_way};

use crate::lacks::{Lack, lack_of};
use crate::ways::Way;
use certificate::Module;
use machine_state::{Instruction, Op};
use module_format::{Fact, LabelRow, Stack, Tables};
use states::{Known, State};
use std::alloc::AllocError;

/// How a process comes to a label, and how far that is from the next instruction.
#[derive(Clone, Copy)]
pub struct Lead {
    pub way: Way,
    pub distance: i32,
}

/// How far back a loop turns.
fn turns_back(fact: Fact) -> Option<Lead>
    ensures { result ≡ turns_back fact }
{
    match fact {
        Fact::Number { lo, .. } if 1 <= lo => Some(Lead {
            way: Way::Jumps,
            distance: -lo,
        }),
        _ => None,
    }
}

/// Where an instruction leads, if it is to one label.
#[tactic(auto, unfolding(crate::specs::Leads::lead_of))]
pub fn lead_of(instruction: Instruction, operand: i32, stack: Stack<Known>) -> Option<Lead>
    ensures { result ≡ lead_of instruction operand stack }
{
    match instruction {
        Instruction::Jump => Some(Lead {
            way: Way::Jumps,
            distance: operand,
        }),
        Instruction::ConditionalJump => Some(Lead {
            way: Way::Tests,
            distance: operand,
        }),
        Instruction::Operate(Op::LoopEnd) => turns_back(stack.a.fact),
        _ => None,
    }
}

/// The code offset at a distance from another one.
pub fn target(next: usize, distance: i32) -> u32
    ensures { result ≡ target next distance }
{
    let to = next as u128 + u128::from(distance.cast_unsigned());
    (to % (1 << 32)) as u32
}

/// Appends what a label wants, and what is known.
#[tactic(auto, unfolding(crate::specs::Leads::lack_text))]
fn push_lacking(text: &mut String, lack: Lack) -> Result<(), AllocError>
    ensures { OnOk result (string_bytes text.new ≡ string_bytes text.old ++ lack_text lack) }
{
    let Lack {
        subject,
        wanted,
        found,
    } = lack;
    write!(text, "the label wants {subject}: {wanted}; it is {found}")
}

/// Appends what a label wants that is not known.
#[tactic(auto, unfolding(crate::specs::Leads::lack_part))]
fn push_lack(
    text: &mut String,
    tables: &Tables<'_>,
    way: Way,
    state: &State,
    row: &LabelRow,
) -> Result<(), AllocError>
    ensures { OnOk result (string_bytes text.new ≡ string_bytes text.old
        ++ lack_part (contents_of tables.now) way (state_of state.now) (label_of row.now)) }
{
    match lack_of(tables, way, state, row) {
        Some(lack) => push_lacking(text, lack),
        None => text.push_str("the label says no more"),
    }
}

/// Appends what the label at an offset wants that is not known.
pub(crate) fn push_lack_at(
    text: &mut String,
    module: &Module,
    to: u32,
    way: Way,
    state: &State,
) -> Result<(), AllocError>
    ensures { OnOk result (string_bytes text.new ≡ string_bytes text.old
        ++ lack_at «module».now way (state_of state.now) (label_at «module».now to)) }
{
    match module.label_at(to) {
        Some(row) => push_lack(text, module.tables(), way, state, row),
        None => text.push_str("no label is there"),
    }
}

/// Appends the same after something else.
#[tactic(auto, unfolding(crate::specs::Leads::after_way))]
fn push_after_way(
    text: &mut String,
    module: &Module,
    to: u32,
    way: Way,
    state: &State,
) -> Result<(), AllocError>
    ensures { OnOk result (string_bytes text.new
        ≡ string_bytes text.old ++ after_way «module».now way (state_of state.now) to) }
{
    text.push_str("; ")?;
    push_lack_at(text, module, to, way, state)?;
    Ok(())
}

/// Appends what the label to which an instruction leads wants that is not known. `next`: the offset after it.
pub(crate) fn push_lead_lack(
    text: &mut String,
    module: &Module,
    instruction: Instruction,
    next: usize,
    operand: i32,
    state: &State,
) -> Result<(), AllocError>
    ensures { OnOk result (string_bytes text.new ≡ string_bytes text.old ++ lead_lack «module».now next
        (state_of state.now) (lead_of instruction operand (state_of state.now).stack)) }
{
    match lead_of(instruction, operand, state.stack) {
        Some(lead) => push_after_way(text, module, target(next, lead.distance), lead.way, state),
        None => text.push_str(""),
    }
}
