//! Landings: jumps by which a process keeps its turn.

ghost use Rattle.machine_state.specs.declared.instruction.Instruction.TheVariants as instruction;
ghost use Rattle.machine_state.specs.Performing.{PerformsInstruction};

use machine_state::{Cpu, FaultKind, Flow, Store, local_address};
use module_format::Stack;

/// `cj`: where A is 0, the process goes on at the distance of the operand from the next instruction, and the registers
/// stay. Otherwise A is popped.
pub(crate) fn conditional_jump<S: Store>(cpu: &mut Cpu<S>, operand: i32) -> Result<Flow, FaultKind>
    ensures { PerformsInstruction S.LoadStore instruction.ConditionalJump operand cpu.old cpu.new result }
{
    cpu.alone()?;
    let condition = cpu.used(cpu.registers.stack.a)?;
    if condition.cast_unsigned() == 0 {
        let to = cpu.target(operand);
        cpu.in_code(u64::from(to))?;
        return Ok(Flow::Land { to });
    }
    cpu.in_code(cpu.next())?;
    cpu.registers.stack.pop(None);
    Ok(Flow::Next)
}

/// `ajw`: the workspace moves by this number of words.
pub(crate) fn adjust_workspace<S: Store>(cpu: &mut Cpu<S>, operand: i32) -> Result<Flow, FaultKind>
    ensures { PerformsInstruction S.LoadStore instruction.AdjustWorkspace operand cpu.old cpu.new result }
{
    cpu.alone()?;
    cpu.in_code(cpu.next())?;
    cpu.registers.workspace = local_address(cpu.registers.workspace, operand);
    Ok(Flow::Next)
}

/// `call`: the four words below the workspace take C, B, A and the address of the next instruction. The process goes on
/// at the distance of the operand from it, with the lowest of them as its workspace.
pub(crate) fn call<S: Store>(cpu: &mut Cpu<S>, operand: i32) -> Result<Flow, FaultKind>
    ensures { PerformsInstruction S.LoadStore instruction.Call operand cpu.old cpu.new result }
{
    cpu.alone()?;
    let workspace = cpu.registers.workspace;
    let first = local_address(workspace, -1);
    let second = local_address(workspace, -2);
    let third = local_address(workspace, -3);
    let fourth = local_address(workspace, -4);
    cpu.writable(first)?;
    cpu.writable(second)?;
    cpu.writable(third)?;
    cpu.writable(fourth)?;
    let to = cpu.target(operand);
    cpu.in_code(u64::from(to))?;
    let back = cpu.next_address().cast_signed();
    cpu.store.store_word(first, cpu.registers.stack.c);
    cpu.store.store_word(second, cpu.registers.stack.b);
    cpu.store.store_word(third, cpu.registers.stack.a);
    cpu.store.store_word(fourth, Some(back));
    cpu.registers.workspace = fourth;
    cpu.registers.stack = Stack::of_empty(None);
    Ok(Flow::Land { to })
}
