//! The sentence that explains a refusal.
#![tactic(auto, unfolding(crate::proofs::Opening::sentence_opens))]

ghost use Rattle.std.specs.Prelude.{◌≡◌, ◌+◌, ◌<◌, ◌^◌, ◌++◌, OnOk, string_bytes};
ghost use Rattle.states.specs.Views.{state_of};
ghost use Rattle.sentences.specs.Sentences.{wants_part, found_part, wants_text, operation_text, name_text};
ghost use Rattle.sentences.specs.Sentences.{named_text, no_instruction, sentence};

use crate::found::push_found;
use certificate::Module;
use explanation_parts::places::Spot;
use explanation_parts::results::result_of;
use explanation_parts::wanted::wanted;
use fact_texts::RangeText;
use listings::{Entry, entry_of, operation_name};
use machine_state::{Instruction, Op};
use prefix_decoder::Instr;
use states::{Rule, State};
use std::alloc::AllocError;

/// Appends what an instruction wants.
fn push_wants_part(text: &mut String, words: &str) -> Result<(), AllocError>
    ensures { OnOk result (string_bytes text.new ≡ string_bytes text.old ++ wants_part words.now) }
{
    text.push_str(" wants ")?;
    text.push_str(words)?;
    Ok(())
}

/// Appends what was found.
fn push_found_part(
    text: &mut String,
    module: &Module,
    rule: Rule,
    spot: Spot,
    state: &State,
    sum: Option<RangeText>,
) -> Result<(), AllocError>
    requires { spot.next < 2 ^ 32 }
    ensures { OnOk result (string_bytes text.new
        ≡ string_bytes text.old ++ found_part «module».now rule spot (state_of state.now) sum) }
{
    text.push_str("; ")?;
    push_found(text, module, rule, spot, state, sum)?;
    Ok(())
}

/// Appends what an instruction wants, and what was found.
fn push_wants(
    text: &mut String,
    module: &Module,
    rule: Rule,
    spot: Spot,
    state: &State,
) -> Result<(), AllocError>
    requires { spot.next < 2 ^ 32 }
    ensures { OnOk result (string_bytes text.new
        ≡ string_bytes text.old ++ wants_text «module».now rule spot (state_of state.now)) }
{
    let sum = result_of(spot.instruction, spot.instr.operand, state.stack);
    push_wants_part(text, wanted(rule, spot.instruction, sum.is_some()))?;
    push_found_part(text, module, rule, spot, state, sum)?;
    Ok(())
}

/// Appends the name of an operation; of one that the module does not have its number too.
fn push_operation(text: &mut String, entry: Entry, op: Op) -> Result<(), AllocError>
    ensures { OnOk result (string_bytes text.new ≡ string_bytes text.old ++ operation_text entry op) }
{
    let name = operation_name(op);
    match entry {
        Entry::Operation(listed) => text.push_str(operation_name(listed)),
        _ => write!(text, "{entry} ({name})"),
    }
}

/// Appends the name of an instruction.
fn push_name(text: &mut String, entry: Entry, instruction: Instruction) -> Result<(), AllocError>
    ensures { OnOk result (string_bytes text.new ≡ string_bytes text.old ++ name_text entry instruction) }
{
    match instruction {
        Instruction::Operate(op) => push_operation(text, entry, op),
        _ => text.push_str(entry.name()),
    }
}

/// Appends the name of an instruction, what it wants, and what was found.
fn push_named(
    text: &mut String,
    module: &Module,
    entry: Entry,
    rule: Rule,
    spot: Spot,
    state: &State,
) -> Result<(), AllocError>
    requires { spot.next < 2 ^ 32 }
    ensures { OnOk result (string_bytes text.new
        ≡ string_bytes text.old ++ named_text «module».now entry rule spot (state_of state.now)) }
{
    push_name(text, entry, spot.instruction)?;
    push_wants(text, module, rule, spot, state)?;
    Ok(())
}

/// Appends that something is no instruction.
fn push_no_instruction(text: &mut String, entry: Entry) -> Result<(), AllocError>
    ensures { OnOk result (string_bytes text.new ≡ string_bytes text.old ++ no_instruction entry) }
{
    write!(text, "{entry} is no instruction")
}

/// Appends the sentence of an instruction that breaks a rule in this state.
#[tactic(auto, unfolding(crate::specs::Sentences::sentence))]
pub(crate) fn push_sentence(
    text: &mut String,
    module: &Module,
    at: usize,
    instr: Instr,
    rule: Rule,
    state: &State,
) -> Result<(), AllocError>
    requires { at + instr.len < 2 ^ 32 }
    ensures { OnOk result (string_bytes text.new
        ≡ string_bytes text.old ++ sentence «module».now at instr rule (state_of state.now)) }
{
    let entry = entry_of(instr, module.tables().has_long_operations);
    let Some(instruction) = Instruction::of(instr.fun, instr.operand) else {
        return push_no_instruction(text, entry);
    };
    let spot = Spot {
        instruction,
        instr,
        next: at + instr.len,
    };
    push_named(text, module, entry, rule, spot, state)
}
