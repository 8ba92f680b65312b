//! The branches of a PAR that a process asks to start, and the join in which it asks to end.

ghost use Rattle.machine_state.specs.declared.op.Op.TheVariants as operation;
ghost use Rattle.machine_state.specs.Performing.{PerformsOperation};

use machine_state::{Cpu, FaultKind, Flow, Request, Store};
use module_format::Stack;

/// `startp`: the branch that begins B bytes after the instruction is to start, with a workspace at A.
pub(crate) fn start_process<S: Store>(cpu: &mut Cpu<S>) -> Result<Flow, FaultKind>
    ensures { PerformsOperation S.LoadStore operation.StartProcess cpu.old cpu.new result }
{
    cpu.outside_alternation()?;
    let workspace = cpu.used(cpu.registers.stack.a)?;
    let distance = cpu.used(cpu.registers.stack.b)?;
    let workspace = cpu.aligned(workspace)?;
    let to = cpu.target(distance);
    cpu.registers.stack = Stack::of_empty(None);
    Ok(Flow::Ask(Request::Start { to, workspace }))
}

/// `endp`: the process is to end in the join of block A.
pub(crate) fn end_process<S: Store>(cpu: &mut Cpu<S>) -> Result<Flow, FaultKind>
    ensures { PerformsOperation S.LoadStore operation.EndProcess cpu.old cpu.new result }
{
    cpu.outside_alternation()?;
    let block = cpu.used(cpu.registers.stack.a)?;
    let block = cpu.aligned(block)?;
    Ok(Flow::Ask(Request::Join { block }))
}
