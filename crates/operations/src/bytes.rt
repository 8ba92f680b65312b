//! Bytes of memory.

ghost use Rattle.machine_state.specs.declared.op.Op.TheVariants as operation;
ghost use Rattle.machine_state.specs.Performing.{PerformsOperation};

use crate::operands::operand;
use machine_state::{Cpu, FaultKind, Flow, Store};

/// `lb`: A becomes the byte at A.
pub(crate) fn load_byte<S: Store>(cpu: &mut Cpu<S>) -> Result<Flow, FaultKind>
    ensures { PerformsOperation S.LoadStore operation.LoadByte cpu.old cpu.new result }
{
    let address = operand(cpu)?.cast_unsigned();
    let byte = cpu.read_byte(address)?;
    cpu.in_code(cpu.next())?;
    cpu.registers.stack.a = byte.map(i32::from);
    Ok(Flow::Next)
}

/// `sb`: the byte at A becomes the low byte of B, and both are popped.
pub(crate) fn store_byte<S: Store>(cpu: &mut Cpu<S>) -> Result<Flow, FaultKind>
    ensures { PerformsOperation S.LoadStore operation.StoreByte cpu.old cpu.new result }
{
    let address = operand(cpu)?.cast_unsigned();
    let value = cpu.used(cpu.registers.stack.b)?;
    cpu.writable_byte(address)?;
    cpu.in_code(cpu.next())?;
    let [low, ..] = value.to_le_bytes();
    cpu.store.store_byte(address, Some(low));
    cpu.registers.stack.pop(None);
    cpu.registers.stack.pop(None);
    Ok(Flow::Next)
}
