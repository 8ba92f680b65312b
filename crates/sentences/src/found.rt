//! What was found where an instruction breaks a rule.

ghost use Rattle.std.specs.Prelude.{◌≡◌, ◌<◌, ◌^◌, ◌++◌, OnOk, string_bytes};
ghost use Rattle.states.specs.Views.{state_of};
ghost use Rattle.sentences.specs.Found.{bytes_words, bytes_found, unknown_found, move_found, pointer_found};
ghost use Rattle.sentences.specs.Found.{order_found, started_part, start_found, regions_found, own_word_found};
ghost use Rattle.sentences.specs.Found.{end_found, message_found, payment_found, budget_found, found_by, found};

use crate::moves::{brings_mixed, mixed_words};
use crate::parts::{push_guard, push_word};
use crate::payments::push_asked;
use crate::started::{push_fault_part, push_shared_part};
use crate::targets::{branch_target, push_branch_part};
use certificate::Module;
use explanation_parts::calls::push_call;
use explanation_parts::channels::{push_channel, push_length};
use explanation_parts::labels::{push_label, push_way};
use explanation_parts::leads::target;
use explanation_parts::modes::{push_guards, push_par};
use explanation_parts::parameters::{asks_parameters, push_arguments};
use explanation_parts::places::{Spot, push_offset, push_place, push_workspace};
use explanation_parts::registers::{push_number, push_registers};
use explanation_parts::uses::{Uses, used};
use fact_texts::{RangeText, is_unknown};
use found_parts::unknown_word;
use machine_state::{Instruction, Op};
use module_format::Stack;
use states::{Known, Rule, State};
use std::alloc::AllocError;

/// What is said of bytes that are sent.
#[tactic(auto, unfolding(crate::specs::Found::bytes_words))]
fn bytes_words() -> &'static str
    ensures { result.now ≡ bytes_words }
{
    "a byte of the message may be part of no number"
}

/// Appends which word is no number, of those that are sent.
#[tactic(auto, unfolding(crate::specs::Found::bytes_found))]
fn push_bytes(text: &mut String, state: &State) -> Result<(), AllocError>
    ensures { OnOk result (string_bytes text.new ≡ string_bytes text.old ++ bytes_found (state_of state.now)) }
{
    text.push_str(bytes_words())?;
    push_word(text, unknown_word(state))?;
    Ok(())
}

/// Appends the first register of which nothing is known; if there is none, it is a byte of a message.
#[tactic(auto, unfolding(crate::specs::Found::unknown_found))]
fn push_unknown(text: &mut String, state: &State) -> Result<(), AllocError>
    ensures { OnOk result (string_bytes text.new ≡ string_bytes text.old ++ unknown_found (state_of state.now)) }
{
    if is_unknown(state.stack.a.fact) {
        return text.push_str("nothing is known of A");
    }
    if is_unknown(state.stack.b.fact) {
        return text.push_str("nothing is known of B");
    }
    if is_unknown(state.stack.c.fact) {
        return text.push_str("nothing is known of C");
    }
    push_bytes(text, state)
}

/// Appends what is known of the registers, and whether bytes go into a parameter that are of no numbers.
#[tactic(auto, unfolding(crate::specs::Found::move_found))]
fn push_move(text: &mut String, state: &State) -> Result<(), AllocError>
    ensures { OnOk result (string_bytes text.new ≡ string_bytes text.old ++ move_found (state_of state.now)) }
{
    push_registers(text, Uses::All, state.stack)?;
    text.push_str(mixed_words(brings_mixed(state)))?;
    Ok(())
}

/// Appends the offset of a pointer that is made, or else what is known of the registers that are used.
#[tactic(auto, unfolding(crate::specs::Found::pointer_found))]
fn push_pointer(text: &mut String, spot: Spot, state: &State) -> Result<(), AllocError>
    ensures { OnOk result (string_bytes text.new
        ≡ string_bytes text.old ++ pointer_found spot.instruction spot.instr.operand (state_of state.now)) }
{
    match spot.instruction {
        Instruction::LoadLocalPointer => push_offset(text, state.depth, spot.instr.operand),
        Instruction::Operate(Op::Move) => push_move(text, state),
        _ => push_registers(text, used(spot.instruction), state.stack),
    }
}

/// Appends the mode, the guards, the registers that are used for a guard, and which guard is next.
#[tactic(auto, unfolding(crate::specs::Found::order_found))]
fn push_order(text: &mut String, instruction: Instruction, state: &State) -> Result<(), AllocError>
    ensures { OnOk result (string_bytes text.new
        ≡ string_bytes text.old ++ order_found instruction (state_of state.now)) }
{
    push_guards(text, state)?;
    push_guard(text, instruction, state)?;
    Ok(())
}

/// Appends which branch begins where one is started, and what its start wants that is not so.
#[tactic(auto, unfolding(crate::specs::Found::started_part))]
fn push_started_part(
    text: &mut String,
    module: &Module,
    spot: Spot,
    state: &State,
) -> Result<(), AllocError>
    ensures { OnOk result (string_bytes text.new
        ≡ string_bytes text.old ++ started_part «module».now spot (state_of state.now)) }
{
    push_branch_part(text, module, spot.instruction, spot.next, state.stack)?;
    push_fault_part(text, module, spot, state)?;
    Ok(())
}

/// Appends the mode, the registers that are used for a PAR, and which branch begins where one is started.
#[tactic(auto, unfolding(crate::specs::Found::start_found))]
fn push_start(
    text: &mut String,
    module: &Module,
    spot: Spot,
    state: &State,
) -> Result<(), AllocError>
    ensures { OnOk result (string_bytes text.new
        ≡ string_bytes text.old ++ start_found «module».now spot (state_of state.now)) }
{
    push_par(text, spot.instruction, state)?;
    push_started_part(text, module, spot, state)?;
    Ok(())
}

/// Appends what is known of the registers, and what a branch has in common with one that is started.
#[tactic(auto, unfolding(crate::specs::Found::regions_found))]
fn push_regions(
    text: &mut String,
    module: &Module,
    spot: Spot,
    state: &State,
) -> Result<(), AllocError>
    ensures { OnOk result (string_bytes text.new
        ≡ string_bytes text.old ++ regions_found «module».now spot (state_of state.now)) }
{
    push_registers(text, used(spot.instruction), state.stack)?;
    push_shared_part(text, module, spot, state)?;
    Ok(())
}

/// Appends the word that is used, or else where the workspace is of the branch that is started.
#[tactic(auto, unfolding(crate::specs::Found::own_word_found))]
fn push_own_word(
    text: &mut String,
    module: &Module,
    spot: Spot,
    state: &State,
) -> Result<(), AllocError>
    ensures { OnOk result (string_bytes text.new ≡ string_bytes text.old
        ++ own_word_found «module».now spot.instruction spot.next spot.instr.operand (state_of state.now)) }
{
    match branch_target(spot.instruction, state.stack) {
        Some(distance) => push_workspace(text, module, target(spot.next, distance)),
        None => push_place(text, module, spot, state),
    }
}

/// Appends what the bytes of an instruction cost, the number that is left, and what is asked where it leads.
#[tactic(auto, unfolding(crate::specs::Found::budget_found))]
fn push_budget(
    text: &mut String,
    module: &Module,
    spot: Spot,
    state: &State,
) -> Result<(), AllocError>
    ensures { OnOk result (string_bytes text.new
        ≡ string_bytes text.old ++ budget_found «module».now spot (state_of state.now)) }
{
    push_payment(text, spot.instr.len, state.number)?;
    push_asked(text, module, spot, state)?;
    Ok(())
}

/// Appends which channel an instruction names, or what is known of the registers that are used.
#[tactic(auto, unfolding(crate::specs::Found::end_found))]
fn push_end(
    text: &mut String,
    instruction: Instruction,
    stack: Stack<Known>,
) -> Result<(), AllocError>
    ensures { OnOk result (string_bytes text.new ≡ string_bytes text.old ++ end_found instruction stack) }
{
    match instruction {
        Instruction::Operate(Op::StartProcess) => push_registers(text, Uses::AAndB, stack),
        Instruction::Operate(_) => push_channel(text, stack.b.fact),
        _ => push_registers(text, Uses::All, stack),
    }
}

/// Appends the lengths of a message and of those of its channel, or what is known of the registers that are used.
#[tactic(auto, unfolding(crate::specs::Found::message_found))]
fn push_message(
    text: &mut String,
    module: &Module,
    instruction: Instruction,
    state: &State,
) -> Result<(), AllocError>
    ensures { OnOk result (string_bytes text.new
        ≡ string_bytes text.old ++ message_found «module».now instruction (state_of state.now)) }
{
    match instruction {
        Instruction::Operate(_) => push_length(text, module, state),
        _ => push_registers(text, Uses::All, state.stack),
    }
}

/// Appends what the bytes of an instruction cost, and the number that is left.
#[tactic(auto, unfolding(crate::specs::Found::payment_found))]
fn push_payment(text: &mut String, len: usize, number: u64) -> Result<(), AllocError>
    ensures { OnOk result (string_bytes text.new ≡ string_bytes text.old ++ payment_found len number) }
{
    write!(text, "its bytes are {len} and the number is {number}")
}

/// Appends what was found, by the rule.
#[tactic(auto, unfolding(crate::specs::Found::found_by))]
fn push_found_by(
    text: &mut String,
    module: &Module,
    rule: Rule,
    spot: Spot,
    state: &State,
    sum: Option<RangeText>,
) -> Result<(), AllocError>
    requires { spot.next < 2 ^ 32 }
    ensures { OnOk result (string_bytes text.new
        ≡ string_bytes text.old ++ found_by «module».now rule spot (state_of state.now) sum) }
{
    let instruction = spot.instruction;
    let uses = used(instruction);
    match rule {
        Rule::Spelling => text.push_str("this one has none"),
        Rule::InstructionStart => text.push_str("one starts there"),
        Rule::Flow => text.push_str("nothing leads here"),
        Rule::UnknownRegister => push_unknown(text, state),
        Rule::Number => push_number(text, uses, state.stack, sum),
        Rule::Pointer => push_pointer(text, spot, state),
        Rule::RegionsMeet => push_regions(text, module, spot, state),
        Rule::Channel => push_end(text, instruction, state.stack),
        Rule::MessageLength => push_message(text, module, instruction, state),
        Rule::Alternation => push_order(text, instruction, state),
        Rule::Forward => push_way(text, spot, state),
        Rule::Par => push_start(text, module, spot, state),
        Rule::Call => push_call(text, module, spot, state),
        Rule::OwnWord => push_own_word(text, module, spot, state),
        Rule::Budget => push_budget(text, module, spot, state),
        Rule::Label => push_label(text, module, spot, state),
    }
}

/// Appends the same, or of a call what it passes, where the rule speaks of that.
#[tactic(auto, unfolding(crate::specs::Found::found))]
pub(crate) fn push_found(
    text: &mut String,
    module: &Module,
    rule: Rule,
    spot: Spot,
    state: &State,
    sum: Option<RangeText>,
) -> Result<(), AllocError>
    requires { spot.next < 2 ^ 32 }
    ensures { OnOk result (string_bytes text.new
        ≡ string_bytes text.old ++ found «module».now rule spot (state_of state.now) sum) }
{
    if asks_parameters(rule, spot.instruction) {
        let to = target(spot.next, spot.instr.operand);
        return push_arguments(text, module, rule, state, to);
    }
    push_found_by(text, module, rule, spot, state, sum)
}
