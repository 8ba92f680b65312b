//! Jumps.

ghost use Rattle.machine_state.specs.declared.instruction.Instruction.TheVariants as instruction;
ghost use Rattle.machine_state.specs.Performing.{PerformsInstruction};

use machine_state::{Cpu, FaultKind, Flow, Store};
use module_format::Stack;

/// `j`: the process goes on at the distance of the operand from the next instruction. It may be sent to the
/// back of the ready list, so the words that scheduling takes and the registers are undefined then.
pub(crate) fn jump<S: Store>(cpu: &mut Cpu<S>, operand: i32) -> Result<Flow, FaultKind>
    ensures { PerformsInstruction S.LoadStore instruction.Jump operand cpu.old cpu.new result }
{
    cpu.alone()?;
    cpu.schedulable()?;
    let to = cpu.target(operand);
    cpu.in_code(u64::from(to))?;
    cpu.clear_scheduling_words();
    cpu.registers.stack = Stack::of_empty(None);
    Ok(Flow::Jump { to })
}
