//! Pointers, and the words that they lead to.

ghost use Rattle.machine_state.specs.declared.instruction.Instruction.TheVariants as instruction;
ghost use Rattle.machine_state.specs.Performing.{PerformsInstruction};

use machine_state::{Cpu, FaultKind, Flow, Store, local_address};

/// `ldlp`: the address of the word with this number from the workspace is pushed.
pub(crate) fn load_local_pointer<S: Store>(
    cpu: &mut Cpu<S>,
    operand: i32,
) -> Result<Flow, FaultKind>
    ensures { PerformsInstruction S.LoadStore instruction.LoadLocalPointer operand cpu.old cpu.new result }
{
    cpu.in_code(cpu.next())?;
    let address = local_address(cpu.registers.workspace, operand);
    cpu.registers.stack.push(Some(address.cast_signed()));
    Ok(Flow::Next)
}

/// `ldnlp`: A becomes the address of the word with this number from A.
pub(crate) fn load_non_local_pointer<S: Store>(
    cpu: &mut Cpu<S>,
    operand: i32,
) -> Result<Flow, FaultKind>
    ensures { PerformsInstruction S.LoadStore instruction.LoadNonLocalPointer operand cpu.old cpu.new result }
{
    cpu.outside_starts()?;
    let base = cpu.used(cpu.registers.stack.a)?;
    cpu.in_code(cpu.next())?;
    let address = local_address(base.cast_unsigned(), operand);
    cpu.registers.stack.a = Some(address.cast_signed());
    Ok(Flow::Next)
}

/// `ldnl`: A becomes the word with this number from A.
pub(crate) fn load_non_local<S: Store>(cpu: &mut Cpu<S>, operand: i32) -> Result<Flow, FaultKind>
    ensures { PerformsInstruction S.LoadStore instruction.LoadNonLocal operand cpu.old cpu.new result }
{
    cpu.alone()?;
    let base = cpu.used(cpu.registers.stack.a)?;
    let first = cpu.aligned(base)?;
    let word = cpu.read(local_address(first, operand))?;
    cpu.in_code(cpu.next())?;
    cpu.registers.stack.a = word;
    Ok(Flow::Next)
}

/// `stnl`: B goes to the word with this number from A, and both are popped.
pub(crate) fn store_non_local<S: Store>(cpu: &mut Cpu<S>, operand: i32) -> Result<Flow, FaultKind>
    ensures { PerformsInstruction S.LoadStore instruction.StoreNonLocal operand cpu.old cpu.new result }
{
    cpu.alone()?;
    let base = cpu.used(cpu.registers.stack.a)?;
    let value = cpu.used(cpu.registers.stack.b)?;
    let first = cpu.aligned(base)?;
    let address = local_address(first, operand);
    cpu.writable(address)?;
    cpu.in_code(cpu.next())?;
    cpu.store.store_word(address, Some(value));
    cpu.registers.stack.pop(None);
    cpu.registers.stack.pop(None);
    Ok(Flow::Next)
}
