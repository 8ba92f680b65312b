//! Operations on the evaluation stack alone.

ghost use Rattle.machine_state.specs.declared.op.Op.TheVariants.{Reverse, MinimumInteger};
ghost use Rattle.machine_state.specs.Performing.{PerformsOperation};

use machine_state::{Cpu, FaultKind, Flow, Store};

/// `rev`: A and B change places.
pub(crate) fn reverse<S: Store>(cpu: &mut Cpu<S>) -> Result<Flow, FaultKind>
    ensures { PerformsOperation S.LoadStore Reverse cpu.old cpu.new result }
{
    cpu.alone()?;
    cpu.in_code(cpu.next())?;
    cpu.registers.stack.reverse();
    Ok(Flow::Next)
}

/// `mint`: the least word is pushed.
pub(crate) fn minimum_integer<S: Store>(cpu: &mut Cpu<S>) -> Result<Flow, FaultKind>
    ensures { PerformsOperation S.LoadStore MinimumInteger cpu.old cpu.new result }
{
    cpu.outside_starts()?;
    cpu.in_code(cpu.next())?;
    cpu.registers.stack.push(Some(i32::MIN));
    Ok(Flow::Next)
}
