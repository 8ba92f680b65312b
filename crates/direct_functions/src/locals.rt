//! Constants, and the words of the workspace.

ghost use Rattle.machine_state.specs.declared.instruction.Instruction.TheVariants as instruction;
ghost use Rattle.machine_state.specs.Performing.{PerformsInstruction};

use machine_state::{Cpu, FaultKind, Flow, Store, local_address};

/// `ldc`: the operand is pushed.
pub(crate) fn load_constant<S: Store>(cpu: &mut Cpu<S>, operand: i32) -> Result<Flow, FaultKind>
    ensures { PerformsInstruction S.LoadStore instruction.LoadConstant operand cpu.old cpu.new result }
{
    cpu.in_code(cpu.next())?;
    cpu.registers.stack.push(Some(operand));
    Ok(Flow::Next)
}

/// `ldl`: the word with this number from the workspace is pushed.
pub(crate) fn load_local<S: Store>(cpu: &mut Cpu<S>, operand: i32) -> Result<Flow, FaultKind>
    ensures { PerformsInstruction S.LoadStore instruction.LoadLocal operand cpu.old cpu.new result }
{
    cpu.outside_starts()?;
    let word = cpu.read(local_address(cpu.registers.workspace, operand))?;
    cpu.in_code(cpu.next())?;
    cpu.registers.stack.push(word);
    Ok(Flow::Next)
}

/// `stl`: A goes to the word with this number from the workspace, and is popped.
pub(crate) fn store_local<S: Store>(cpu: &mut Cpu<S>, operand: i32) -> Result<Flow, FaultKind>
    ensures { PerformsInstruction S.LoadStore instruction.StoreLocal operand cpu.old cpu.new result }
{
    cpu.alone()?;
    let value = cpu.used(cpu.registers.stack.a)?;
    let address = local_address(cpu.registers.workspace, operand);
    cpu.writable(address)?;
    cpu.in_code(cpu.next())?;
    cpu.store.store_word(address, Some(value));
    cpu.registers.stack.pop(None);
    Ok(Flow::Next)
}
