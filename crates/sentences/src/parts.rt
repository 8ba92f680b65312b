//! Parts of sentences: which word, guard or row is the reason.
#![tactic(auto, unfolding(crate::proofs::Opening::parts_opens))]

ghost use Rattle.std.specs.Prelude.{◌≡◌, ◌++◌, OnOk, string_bytes};
ghost use Rattle.states.specs.Views.{state_of};
ghost use Rattle.sentences.specs.Parts.{turn_part, word_part, next_part, registers_part, guard_text, guard_part};

use found_parts::{GuardRegisters, KnownWord, NextGuard, Turn, next_guard};
use machine_state::{Instruction, Op};
use module_format::Stack;
use state_texts::WordText;
use states::{Known, State};
use std::alloc::AllocError;

/// Appends what a turn costs, and what it may cost.
pub(crate) fn push_turn(text: &mut String, turn: Option<Turn>) -> Result<(), AllocError>
    ensures { OnOk result (string_bytes text.new ≡ string_bytes text.old ++ turn_part turn) }
{
    match turn {
        Some(Turn { cost, weight }) => {
            write!(text, "; a turn costs {cost} and the weight is {weight}")
        }
        None => text.push_str(""),
    }
}

/// Appends which word is no number.
pub(crate) fn push_word(text: &mut String, word: Option<KnownWord>) -> Result<(), AllocError>
    ensures { OnOk result (string_bytes text.new ≡ string_bytes text.old ++ word_part word) }
{
    match word {
        Some(KnownWord { word, fact }) => write!(text, ": word {word} is {}", WordText(fact)),
        None => text.push_str(""),
    }
}

/// Appends which guard is next.
fn push_next(text: &mut String, next: Option<NextGuard>) -> Result<(), AllocError>
    ensures { OnOk result (string_bytes text.new ≡ string_bytes text.old ++ next_part next) }
{
    match next {
        Some(next) => write!(text, "; {next}"),
        None => text.push_str(""),
    }
}

/// Appends the registers that are used for a guard.
fn push_registers(text: &mut String, op: Op, stack: Stack<Known>) -> Result<(), AllocError>
    ensures { OnOk result (string_bytes text.new ≡ string_bytes text.old ++ registers_part op stack) }
{
    let registers = GuardRegisters { op, stack };
    write!(text, "{registers}")
}

/// Appends the registers that an operation uses for a guard, and which guard is next.
fn push_guard_text(text: &mut String, op: Op, state: &State) -> Result<(), AllocError>
    ensures { OnOk result (string_bytes text.new ≡ string_bytes text.old ++ guard_text op (state_of state.now)) }
{
    push_registers(text, op, state.stack)?;
    push_next(text, next_guard(op, state))?;
    Ok(())
}

/// Appends the registers that an instruction uses for a guard, and which guard is next.
pub(crate) fn push_guard(
    text: &mut String,
    instruction: Instruction,
    state: &State,
) -> Result<(), AllocError>
    ensures { OnOk result (string_bytes text.new
        ≡ string_bytes text.old ++ guard_part instruction (state_of state.now)) }
{
    match instruction {
        Instruction::Operate(op) => push_guard_text(text, op, state),
        _ => text.push_str(""),
    }
}
