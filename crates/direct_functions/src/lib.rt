//! The functions of an instruction byte: one instruction of one process alone.
#![tactic(auto, using(machine_state::proofs::Scheduling::schedules_is), unfolding(machine_state::specs::LocalStep::instruction_step, machine_state::specs::LocalStep::uses, machine_state::specs::LocalStep::computes, machine_state::specs::LocalStep::aligned, machine_state::specs::LocalStep::reads, machine_state::specs::LocalStep::writes, machine_state::specs::LocalStep::leads_to, machine_state::specs::LocalStep::lands_at, machine_state::specs::LocalStep::goes_on))]

mod arithmetic;
mod jumps;
mod landings;
mod locals;
mod pointers;

ghost use Rattle.std.specs.Prelude.{◌≡◌};
ghost use Rattle.machine_state.specs.Performing.{PerformsFunction};

use machine_state::{Cpu, FaultKind, Flow, Instruction, Store};
use operations::operate;
use prefix_decoder::Fun;

/// Executes one function of the running process with its whole operand; `opr` is the operation that its operand
/// chooses. The registers `at`, `began` and `operand` stay as they are: the caller says where the next instruction
/// begins. After a fault nothing has changed, and what is asked of others has changed the registers alone.
#[tactic(auto, unfolding(machine_state::specs::LocalStep::local_step, machine_state::specs::LocalStep::step_of, machine_state::specs::LocalStep::instruction_step))]
pub fn direct<S: Store>(cpu: &mut Cpu<S>, fun: Fun, operand: i32) -> Result<Flow, FaultKind>
    ensures { PerformsFunction S.LoadStore fun operand cpu.old cpu.new result }
{
    match Instruction::of(fun, operand) {
        Some(Instruction::LoadConstant) => locals::load_constant(cpu, operand),
        Some(Instruction::LoadLocal) => locals::load_local(cpu, operand),
        Some(Instruction::StoreLocal) => locals::store_local(cpu, operand),
        Some(Instruction::WithConstant(op)) => arithmetic::with_constant(cpu, op, operand),
        Some(Instruction::Jump) => jumps::jump(cpu, operand),
        Some(Instruction::LoadLocalPointer) => pointers::load_local_pointer(cpu, operand),
        Some(Instruction::LoadNonLocalPointer) => pointers::load_non_local_pointer(cpu, operand),
        Some(Instruction::LoadNonLocal) => pointers::load_non_local(cpu, operand),
        Some(Instruction::StoreNonLocal) => pointers::store_non_local(cpu, operand),
        Some(Instruction::ConditionalJump) => landings::conditional_jump(cpu, operand),
        Some(Instruction::AdjustWorkspace) => landings::adjust_workspace(cpu, operand),
        Some(Instruction::Call) => landings::call(cpu, operand),
        Some(Instruction::Operate(op)) => operate(cpu, op),
        None => Err(FaultKind::UnknownOperation),
    }
}
