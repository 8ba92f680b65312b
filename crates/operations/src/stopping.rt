//! How a process stops.

ghost use Rattle.machine_state.specs.declared.op.Op.TheVariants.{StopProcess};
ghost use Rattle.machine_state.specs.Performing.{PerformsOperation};

use machine_state::{Cpu, FaultKind, Flow, Store};

/// `stopp`: the process stops for good. The words that scheduling takes are undefined then.
pub(crate) fn stop_process<S: Store>(cpu: &mut Cpu<S>) -> Result<Flow, FaultKind>
    ensures { PerformsOperation S.LoadStore StopProcess cpu.old cpu.new result }
{
    cpu.alone()?;
    cpu.schedulable()?;
    cpu.clear_scheduling_words();
    Ok(Flow::Stop)
}
