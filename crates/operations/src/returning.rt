//! How a procedure returns.

ghost use Rattle.machine_state.specs.declared.op.Op.TheVariants as operation;
ghost use Rattle.machine_state.specs.Performing.{PerformsOperation};

use machine_state::{Cpu, FaultKind, Flow, Store, local_address};
use module_format::Stack;

/// `ret`: the process goes on at the address in the word at its workspace, and leaves four words. No register is
/// handed back.
pub(crate) fn return_from_call<S: Store>(cpu: &mut Cpu<S>) -> Result<Flow, FaultKind>
    ensures { PerformsOperation S.LoadStore operation.Return cpu.old cpu.new result }
{
    cpu.alone()?;
    let workspace = cpu.registers.workspace;
    let word = cpu.read(workspace)?;
    let back = cpu.used(word)?;
    let to = cpu.code_offset(back.cast_unsigned());
    cpu.in_code(u64::from(to))?;
    cpu.registers.workspace = local_address(workspace, 4);
    cpu.registers.stack = Stack::of_empty(None);
    Ok(Flow::Land { to })
}
