//! From `alt` to `altwt`: what the process would receive from is enabled.

ghost use Rattle.std.specs.Prelude.{◌≡◌, ◌+◌, ◌<◌, ◌^◌, IsTrue, length};
ghost use Rattle.module_format.specs.Contents.{Contents, contents_of};
ghost use Rattle.machine_state.specs.LocalStep.{holds_scheduling_words};
ghost use Rattle.machine_state.specs.Moves.{counted};
ghost use Rattle.machine_state.specs.Turn.{ran, answered};
ghost use Rattle.machine_state.specs.Alternations.{ready_or, begun, skip_enabled, channel_enabled};
ghost use Rattle.traffic.specs.Moment.{IsSteady};
ghost use Rattle.traffic.specs.Settling.{here_in, Settles};
ghost use Rattle.machine_state.specs.Asking.{scheduled, untouched};

use crate::source::Source;
use machine_state::{Fault, FaultKind, Mode, Registers, Store};
use module_format::Tables;
use process_queue::ListQueue;
use traffic::{Here, Traffic};

/// The mode in which a process goes on enabling, once it has enabled something that is ready or not.
fn ready_or(mode: Mode, is_ready: bool) -> Mode
    ensures { result ≡ ready_or mode is_ready }
{
    match mode {
        Mode::Enabling { is_ready: before } => Mode::Enabling {
            is_ready: before || is_ready,
        },
        _ => mode,
    }
}

/// Begins an alternation. Nothing is enabled yet.
pub fn begin<S: Store>(traffic: &mut Traffic<S, ListQueue>, here: &Here, registers: Registers)
    requires next { here.now.task.registers.at + 1 < 2 ^ 32 }
    requires task { IsSteady here.now.task }
    requires words { IsTrue (holds_scheduling_words traffic.old.holding registers.workspace) }
    ensures turn { (m : Contents) → let w = traffic.old.world in
        begun (here_in m here.now) (scheduled registers w.memory) w ≡ answered ran (counted traffic.new.world) }
    ensures rest { traffic.new ≡ record traffic.old { world = traffic.new.world } }
{
    traffic.clear_scheduling_words(registers);
    traffic.go_on(here, Mode::Enabling { is_ready: false }, registers);
}

/// Enables a skip, which is ready if the guard holds.
pub fn enable_skip<S: Store>(
    traffic: &mut Traffic<S, ListQueue>,
    here: &Here,
    guard: bool,
    registers: Registers,
)
    requires next { here.now.task.registers.at + 1 < 2 ^ 32 }
    requires task { IsSteady here.now.task }
    ensures turn { (m : Contents) → let w = traffic.old.world in
        let l = untouched registers w.memory in
        skip_enabled (here_in m here.now) guard l w ≡ answered ran (counted traffic.new.world) }
    ensures rest { traffic.new ≡ record traffic.old { world = traffic.new.world } }
{
    traffic.go_on(here, ready_or(here.task.mode, guard), registers);
}

/// Enables the link or channel at the address, if the guard holds.
///
/// If there is no link or channel at the address, the fault is `EndNotHeld`; if it is enabled already,
/// `AlternationOrder`. Then, if no code follows the instruction, it is `OutsideCode`.
pub fn enable_channel<S: Store>(
    traffic: &mut Traffic<S, ListQueue>,
    tables: &Tables,
    here: &Here,
    guard: bool,
    address: u32,
    registers: Registers,
) -> Result<(), Fault>
    requires code { length tables.now.code.now < 2 ^ 32 }
    requires task { IsSteady here.now.task }
    ensures settles { let h = here_in (contents_of tables.now) here.now in
        let w = traffic.old.world in
        Settles w traffic.new.world ran result (channel_enabled h guard address (untouched registers w.memory) w) }
    ensures rest { traffic.new ≡ record traffic.old { world = traffic.new.world } }
{
    if !guard {
        here.check(here.is_followed(tables), FaultKind::OutsideCode)?;
        traffic.go_on(here, here.task.mode, registers);
        return Ok(());
    }
    let source = Source::at(traffic, address).ok_or(here.fault(FaultKind::EndNotHeld))?;
    here.check(source.enabled().is_none(), FaultKind::AlternationOrder)?;
    here.check(here.is_followed(tables), FaultKind::OutsideCode)?;
    let mode = ready_or(here.task.mode, source.is_ready());
    traffic.go_on(here, mode, registers);
    source.set_enabled(traffic, Some(here.process));
    Ok(())
}
