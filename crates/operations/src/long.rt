//! Shifts, and operations of two words at a time.

ghost use Rattle.machine_state.specs.declared.op.Op.TheVariants as operation;
ghost use Rattle.machine_state.specs.Performing.{PerformsOperation};

use crate::operands::{operand, replace_two};
use machine_state::{Cpu, FaultKind, Flow, LongOp, MOST_SHIFT, Shift, Store};
use module_format::Stack;

/// `shl`, `shr`: A and B are popped, and B, shifted by A bits, is pushed.
pub(crate) fn shift<S: Store>(cpu: &mut Cpu<S>, op: Shift) -> Result<Flow, FaultKind>
    ensures { PerformsOperation S.LoadStore (operation.Shift op) cpu.old cpu.new result }
{
    let count = operand(cpu)?;
    let word = cpu.used(cpu.registers.stack.b)?;
    let count = cpu.count(0, MOST_SHIFT, count)?;
    let value = op.apply(word, count);
    replace_two(cpu, value)
}

/// `lsum`, `ldiff`, `lmul`: A becomes the low word of the result of B, A and C, and B the high one or the carry.
pub(crate) fn long<S: Store>(cpu: &mut Cpu<S>, op: LongOp) -> Result<Flow, FaultKind>
    ensures { PerformsOperation S.LoadStore (operation.Long op) cpu.old cpu.new result }
{
    cpu.check(cpu.has_long_operations, FaultKind::UnknownOperation)?;
    let right = operand(cpu)?;
    let left = cpu.used(cpu.registers.stack.b)?;
    let third = cpu.used(cpu.registers.stack.c)?;
    cpu.in_code(cpu.next())?;
    let result = op.apply(left, right, third);
    cpu.registers.stack = Stack {
        a: Some(result.low),
        b: Some(result.high),
        c: None,
    };
    Ok(Flow::Next)
}
