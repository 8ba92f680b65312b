//! Blocks of bytes that move.

ghost use Rattle.machine_state.specs.declared.op.Op.TheVariants as operation;
ghost use Rattle.machine_state.specs.Performing.{PerformsOperation};

use crate::operands::operand;
use machine_state::{Cpu, FaultKind, Flow, MOST_MOVED, Store};
use module_format::Stack;

/// `move`: A bytes go from C to B. The two blocks do not meet, and undefined bytes stay undefined.
pub(crate) fn move_bytes<S: Store>(cpu: &mut Cpu<S>) -> Result<Flow, FaultKind>
    ensures { PerformsOperation S.LoadStore operation.Move cpu.old cpu.new result }
{
    let count = operand(cpu)?;
    let to = cpu.used(cpu.registers.stack.b)?.cast_unsigned();
    let from = cpu.used(cpu.registers.stack.c)?.cast_unsigned();
    let count = cpu.count(0, MOST_MOVED, count)?;
    let is_own = cpu.may_copy(from, to, count);
    cpu.check(is_own, FaultKind::NotOwn)?;
    cpu.in_code(cpu.next())?;
    cpu.store.copy(from, to, count);
    cpu.registers.stack = Stack::of_empty(None);
    Ok(Flow::Next)
}
