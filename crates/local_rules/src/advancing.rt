//! The rule of an instruction of this family, on a state in place.

ghost use Rattle.std.specs.Prelude.{◌≡◌};
ghost use Rattle.states.specs.Views.{state_of, BelongsTo};
ghost use Rattle.rulings.specs.Places.{site_of};
ghost use Rattle.rulings.specs.Telling.{Advances};
ghost use Rattle.local_rules.specs.LocalRules.{local_operation_rule, local_rule};

use crate::jumps::{jump, stop_process};
use crate::loops::end_turn;
use crate::memory::{
    load_byte, load_non_local, load_non_local_pointer, load_pointer_to_instruction, subscript,
};
use crate::moves::move_bytes;
use crate::numbers::Check;
use crate::stores::{store_byte, store_non_local};
use crate::word_rules::{
    adjust_workspace, binary, check, conditional_jump, load_constant, load_local,
    load_local_pointer, long, minimum_integer, reverse, shift, store_local, unary, with_constant,
};
use machine_state::{Instruction, Op};
use module_format::Step;
use rulings::{Continuation, Place};
use states::{Rule, State};

#[tactic(auto, unfolding(crate::specs::LocalRules::local_operation_rule))]
fn operate(place: &Place, state: &mut State, op: Op) -> Result<Continuation, Rule>
    requires { BelongsTo place.now.module.now state.old }
    ensures ruling { let ruling = local_operation_rule (site_of place.now) op (state_of state.old) in
        Advances result (state_of state.new) ruling }
    ensures belongs { BelongsTo place.now.module.now state.new }
{
    match op {
        Op::Reverse => reverse(place, state),
        Op::MinimumInteger => minimum_integer(place, state),
        Op::StopProcess => stop_process(place, state),
        Op::Binary(op) => binary(place, state, op),
        Op::Unary(op) => unary(place, state, op),
        Op::Shift(op) => shift(place, state, op),
        Op::Long(op) => long(place, state, op),
        Op::CheckSubscript => check(place, state, Check::Subscript),
        Op::CheckCount => check(place, state, Check::Count),
        Op::ByteSubscript => subscript(place, state, Step::Byte),
        Op::WordSubscript => subscript(place, state, Step::Word),
        Op::LoadPointerToInstruction => load_pointer_to_instruction(place, state),
        Op::LoadByte => load_byte(place, state),
        Op::StoreByte => store_byte(place, state),
        Op::Move => move_bytes(place, state),
        Op::LoopEnd => end_turn(place, state),
        _ => Err(Rule::Spelling),
    }
}

/// Takes a state over an instruction of this family, by the rule of that instruction, and reports how a process goes on
/// there. If the rule is broken, the state is left part of the way. An instruction of another family breaks
/// `Rule::Spelling`.
#[tactic(auto, unfolding(crate::specs::LocalRules::local_rule))]
pub fn advance_locally(
    place: &Place,
    state: &mut State,
    instruction: Instruction,
    operand: i32,
) -> Result<Continuation, Rule>
    requires { BelongsTo place.now.module.now state.old }
    ensures ruling { let ruling = local_rule (site_of place.now) instruction operand (state_of state.old) in
        Advances result (state_of state.new) ruling }
    ensures belongs { BelongsTo place.now.module.now state.new }
{
    match instruction {
        Instruction::LoadConstant => load_constant(place, state, operand),
        Instruction::LoadLocal => load_local(place, state, operand),
        Instruction::StoreLocal => store_local(place, state, operand),
        Instruction::WithConstant(op) => with_constant(place, state, op, operand),
        Instruction::LoadLocalPointer => load_local_pointer(place, state, operand),
        Instruction::AdjustWorkspace => adjust_workspace(place, state, operand),
        Instruction::Jump => jump(place, state, operand),
        Instruction::ConditionalJump => conditional_jump(place, state, operand),
        Instruction::LoadNonLocalPointer => load_non_local_pointer(place, state, operand),
        Instruction::LoadNonLocal => load_non_local(place, state, operand),
        Instruction::StoreNonLocal => store_non_local(place, state, operand),
        Instruction::Operate(op) => operate(place, state, op),
        Instruction::Call => Err(Rule::Spelling),
    }
}
