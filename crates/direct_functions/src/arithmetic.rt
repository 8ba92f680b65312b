//! Arithmetic on A.

ghost use Rattle.machine_state.specs.declared.instruction.Instruction.TheVariants as instruction;
ghost use Rattle.machine_state.specs.Performing.{PerformsInstruction};

use machine_state::{Cpu, FaultKind, Flow, Store};
use word_arithmetic::Binary;

/// `adc` and the like: A becomes the result of the operation on A and the operand, unless that sets the error flag.
pub(crate) fn with_constant<S: Store>(
    cpu: &mut Cpu<S>,
    op: Binary,
    operand: i32,
) -> Result<Flow, FaultKind>
    ensures { PerformsInstruction S.LoadStore (instruction.WithConstant op) operand cpu.old cpu.new result }
{
    cpu.alone()?;
    let left = cpu.used(cpu.registers.stack.a)?;
    let value = cpu.computed(op.apply(left, operand))?;
    cpu.in_code(cpu.next())?;
    cpu.registers.stack.a = Some(value);
    Ok(Flow::Next)
}
