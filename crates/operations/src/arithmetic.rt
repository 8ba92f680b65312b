//! Operations that compute with words of the evaluation stack.

ghost use Rattle.machine_state.specs.declared.op.Op.TheVariants as operation;
ghost use Rattle.machine_state.specs.Performing.{PerformsOperation};

use crate::operands::{operand, replace_two};
use machine_state::{Cpu, FaultKind, Flow, Store};
use word_arithmetic::{Binary, Unary};

/// An operation of two operands: A and B are popped, and the result of B and A is pushed, unless that sets the error
/// flag.
pub(crate) fn binary<S: Store>(cpu: &mut Cpu<S>, op: Binary) -> Result<Flow, FaultKind>
    ensures { PerformsOperation S.LoadStore (operation.Binary op) cpu.old cpu.new result }
{
    let right = operand(cpu)?;
    let left = cpu.used(cpu.registers.stack.b)?;
    let value = cpu.computed(op.apply(left, right))?;
    replace_two(cpu, value)
}

/// An operation of one operand: A becomes the result of A, unless that sets the error flag.
pub(crate) fn unary<S: Store>(cpu: &mut Cpu<S>, op: Unary) -> Result<Flow, FaultKind>
    ensures { PerformsOperation S.LoadStore (operation.Unary op) cpu.old cpu.new result }
{
    let operand = operand(cpu)?;
    let value = cpu.computed(op.apply(operand))?;
    cpu.in_code(cpu.next())?;
    cpu.registers.stack.a = Some(value);
    Ok(Flow::Next)
}
