//! What is asked of the number where an instruction leads.
#![tactic(auto, unfolding(crate::specs::Payments::label_words, crate::specs::Payments::procedure_words, crate::specs::Payments::cost_text, crate::specs::Payments::label_text, crate::specs::Payments::asked_text))]

ghost use Rattle.std.specs.Prelude.{◌≡◌, ◌++◌, OnOk, string_bytes};
ghost use Rattle.machine_state.specs.LocalStep.{target};
ghost use Rattle.module_format.specs.Contents.{label_at};
ghost use Rattle.certificate.specs.Starts.{procedure_at};
ghost use Rattle.states.specs.Views.{state_of};
ghost use Rattle.explanation_parts.specs.Leads.{lead_of};
ghost use Rattle.sentences.specs.Payments.{label_words, procedure_words, cost_text, label_asked, procedure_asked};
ghost use Rattle.sentences.specs.Payments.{ends_turn, turn_at, label_text, lead_asked, asked_text};

use crate::parts::push_turn;
use certificate::Module;
use explanation_parts::costs::label_cost;
use explanation_parts::leads::{lead_of, target};
use explanation_parts::places::Spot;
use explanation_parts::ways::Way;
use found_parts::{Turn, turn_of};
use machine_state::{Instruction, Op};
use states::State;
use std::alloc::AllocError;

/// What is said of the cost of a label.
fn label_words() -> &'static str
    ensures { result.now ≡ label_words }
{
    "; the label costs "
}

/// What is said of the cost of a procedure.
fn procedure_words() -> &'static str
    ensures { result.now ≡ procedure_words }
{
    "; the procedure costs "
}

/// Appends words and a cost.
fn push_cost(text: &mut String, words: &str, cost: u128) -> Result<(), AllocError>
    ensures { OnOk result (string_bytes text.new ≡ string_bytes text.old ++ cost_text words.now cost) }
{
    text.push_str(words)?;
    write!(text, "{cost}")?;
    Ok(())
}

/// Whether an instruction ends a turn of a loop.
fn ends_turn(instruction: Instruction) -> bool
    ensures { result ≡ ends_turn instruction }
{
    matches!(instruction, Instruction::Operate(Op::LoopEnd))
}

/// The turn that ends at an instruction, where the label asks this.
fn turn_at(spot: Spot, state: &State, asked: u128) -> Option<Turn>
    ensures { result ≡ turn_at spot (state_of state.now) asked }
{
    if !ends_turn(spot.instruction) {
        return None;
    }
    turn_of(state, spot.instr.len, asked)
}

/// Appends what a label costs, and where a turn ends what that costs.
fn push_label_cost(
    text: &mut String,
    spot: Spot,
    state: &State,
    asked: u128,
) -> Result<(), AllocError>
    ensures { OnOk result (string_bytes text.new
        ≡ string_bytes text.old ++ label_text spot (state_of state.now) asked) }
{
    push_cost(text, label_words(), asked)?;
    push_turn(text, turn_at(spot, state, asked))?;
    Ok(())
}

/// Appends what the label at an offset costs.
fn push_label_asked(
    text: &mut String,
    module: &Module,
    to: u32,
    way: Way,
    spot: Spot,
    state: &State,
) -> Result<(), AllocError>
    ensures { OnOk result (string_bytes text.new ≡ string_bytes text.old
        ++ label_asked way spot (state_of state.now) (label_at «module».now to)) }
{
    match module.label_at(to) {
        Some(row) => push_label_cost(text, spot, state, label_cost(way, state, row)),
        None => text.push_str(""),
    }
}

/// Appends what the procedure at an offset costs.
fn push_procedure_asked(text: &mut String, module: &Module, to: u32) -> Result<(), AllocError>
    ensures { OnOk result (string_bytes text.new
        ≡ string_bytes text.old ++ procedure_asked (procedure_at «module».now to)) }
{
    match module.procedure_at(to) {
        Some((_context, row)) => push_cost(text, procedure_words(), u128::from(row.number)),
        None => text.push_str(""),
    }
}

/// Appends what the label costs to which an instruction leads.
fn push_lead_asked(
    text: &mut String,
    module: &Module,
    spot: Spot,
    state: &State,
) -> Result<(), AllocError>
    ensures { OnOk result (string_bytes text.new ≡ string_bytes text.old ++ lead_asked «module».now spot
        (state_of state.now) (lead_of spot.instruction spot.instr.operand (state_of state.now).stack)) }
{
    match lead_of(spot.instruction, spot.instr.operand, state.stack) {
        Some(lead) => {
            let to = target(spot.next, lead.distance);
            push_label_asked(text, module, to, lead.way, spot, state)
        }
        None => text.push_str(""),
    }
}

/// Appends what is asked where an instruction leads.
pub(crate) fn push_asked(
    text: &mut String,
    module: &Module,
    spot: Spot,
    state: &State,
) -> Result<(), AllocError>
    ensures { OnOk result (string_bytes text.new ≡ string_bytes text.old
        ++ asked_text «module».now spot (state_of state.now)) }
{
    match spot.instruction {
        Instruction::Call => {
            push_procedure_asked(text, module, target(spot.next, spot.instr.operand))
        }
        _ => push_lead_asked(text, module, spot, state),
    }
}
