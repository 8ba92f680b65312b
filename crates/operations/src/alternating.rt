//! The steps of an alternation that a process asks for.
#![tactic(auto, using(machine_state::proofs::Scheduling::schedules_is), unfolding(machine_state::specs::LocalStep::operation_step, machine_state::specs::LocalStep::uses, machine_state::specs::LocalStep::writes, machine_state::specs::LocalStep::followed_by_code))]

ghost use Rattle.std.specs.Prelude.{◌≡◌, ◌==◌, not};
ghost use Rattle.std.specs.Int.{w32, cast_unsigned};
ghost use Rattle.machine_state.specs.declared.op.Op.TheVariants as operation;
ghost use Rattle.machine_state.specs.Performing.{PerformsOperation};

use machine_state::{Cpu, FaultKind, Flow, Request, Store};
use module_format::{Direction, Stack};

/// Whether a guard holds, by the word that it is.
fn guard_holds(guard: i32) -> bool
    ensures { result ≡ not (cast_unsigned w32 guard == 0) }
{
    guard.cast_unsigned() != 0
}

/// `alt`: an alternation begins.
pub(crate) fn alternate<S: Store>(cpu: &mut Cpu<S>) -> Result<Flow, FaultKind>
    ensures { PerformsOperation S.LoadStore operation.Alternate cpu.old cpu.new result }
{
    cpu.alone()?;
    cpu.schedulable()?;
    cpu.in_code(cpu.next())?;
    Ok(Flow::Ask(Request::Begin))
}

/// `enbc`: channel B is to be enabled, if the guard A holds. A alone is handed on.
pub(crate) fn enable_channel<S: Store>(cpu: &mut Cpu<S>) -> Result<Flow, FaultKind>
    ensures { PerformsOperation S.LoadStore operation.EnableChannel cpu.old cpu.new result }
{
    cpu.while_enabling()?;
    let guard = cpu.used(cpu.registers.stack.a)?;
    let channel = cpu.used(cpu.registers.stack.b)?;
    let address = cpu.channel(channel, Direction::In)?;
    cpu.registers.stack = Stack {
        a: Some(guard),
        b: None,
        c: None,
    };
    let guard = guard_holds(guard);
    Ok(Flow::Ask(Request::EnableChannel { guard, address }))
}

/// `enbs`: a skip is to be enabled, if the guard A holds. A alone is handed on.
pub(crate) fn enable_skip<S: Store>(cpu: &mut Cpu<S>) -> Result<Flow, FaultKind>
    ensures { PerformsOperation S.LoadStore operation.EnableSkip cpu.old cpu.new result }
{
    cpu.while_enabling()?;
    let guard = cpu.used(cpu.registers.stack.a)?;
    cpu.in_code(cpu.next())?;
    cpu.registers.stack = Stack {
        a: Some(guard),
        b: None,
        c: None,
    };
    let guard = guard_holds(guard);
    Ok(Flow::Ask(Request::EnableSkip { guard }))
}

/// `altwt`: the process waits until something that it has enabled is ready.
pub(crate) fn alternation_wait<S: Store>(cpu: &mut Cpu<S>) -> Result<Flow, FaultKind>
    ensures { PerformsOperation S.LoadStore operation.AlternationWait cpu.old cpu.new result }
{
    cpu.while_enabling()?;
    cpu.schedulable()?;
    cpu.writable(cpu.registers.workspace)?;
    cpu.in_code(cpu.next())?;
    cpu.registers.stack = Stack::of_empty(None);
    Ok(Flow::Ask(Request::Wait))
}

/// `disc`: channel C is to be disabled, if the guard B holds, which may select A.
pub(crate) fn disable_channel<S: Store>(cpu: &mut Cpu<S>) -> Result<Flow, FaultKind>
    ensures { PerformsOperation S.LoadStore operation.DisableChannel cpu.old cpu.new result }
{
    cpu.while_disabling()?;
    let distance = cpu.used(cpu.registers.stack.a)?;
    let guard = guard_holds(cpu.used(cpu.registers.stack.b)?);
    let channel = cpu.used(cpu.registers.stack.c)?;
    let address = cpu.channel(channel, Direction::In)?;
    cpu.writable(cpu.registers.workspace)?;
    Ok(Flow::Ask(Request::DisableChannel {
        guard,
        address,
        distance,
    }))
}

/// `diss`: a skip is to be disabled, if the guard B holds, which may select A.
pub(crate) fn disable_skip<S: Store>(cpu: &mut Cpu<S>) -> Result<Flow, FaultKind>
    ensures { PerformsOperation S.LoadStore operation.DisableSkip cpu.old cpu.new result }
{
    cpu.while_disabling()?;
    let distance = cpu.used(cpu.registers.stack.a)?;
    let guard = guard_holds(cpu.used(cpu.registers.stack.b)?);
    cpu.writable(cpu.registers.workspace)?;
    cpu.in_code(cpu.next())?;
    Ok(Flow::Ask(Request::DisableSkip { guard, distance }))
}

/// `altend`: the alternation is to end, and the process to go on at the selected distance from the next instruction. If
/// nothing is selected, the fault is `AlternationOrder`.
pub(crate) fn alternation_end<S: Store>(cpu: &mut Cpu<S>) -> Result<Flow, FaultKind>
    ensures { PerformsOperation S.LoadStore operation.AlternationEnd cpu.old cpu.new result }
{
    let selection = cpu.while_disabling()?;
    let distance = selection.ok_or(FaultKind::AlternationOrder)?;
    let to = cpu.target(distance);
    Ok(Flow::Ask(Request::End { to }))
}
