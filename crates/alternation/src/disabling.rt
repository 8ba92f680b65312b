//! From `altwt` to `altend`: the process waits until something is ready, and what it has enabled is disabled.

ghost use Rattle.std.specs.Prelude.{◌≡◌, ◌+◌, ◌<◌, ◌^◌, IsTrue, length};
ghost use Rattle.module_format.specs.Contents.{Contents, contents_of};
ghost use Rattle.machine_state.specs.Holding.{may_write_word};
ghost use Rattle.machine_state.specs.LocalStep.{holds_scheduling_words};
ghost use Rattle.machine_state.specs.Memory.{place_of};
ghost use Rattle.machine_state.specs.Moves.{counted};
ghost use Rattle.machine_state.specs.Turn.{ran, answered};
ghost use Rattle.machine_state.specs.Alternations.{waited, skip_disabled, channel_disabled, alternation_ended};
ghost use Rattle.traffic.specs.Moment.{IsSteady};
ghost use Rattle.traffic.specs.Settling.{here_in, Settles};
ghost use Rattle.machine_state.specs.Asking.{scheduled, untouched, without_selection_word};
ghost use Rattle.alternation.specs.Locals.{selects, after_choice};
ghost use Rattle.alternation.specs.Ready.{is_ready_in};

use crate::moves::clear_selection_word;
use crate::source::Source;
use machine_state::{Condition, Fault, FaultKind, Mode, Registers, Store};
use module_format::{Stack, Tables};
use process_queue::ListQueue;
use traffic::{Here, Traffic};

/// Waits until something that is enabled is ready. Returns whether the process goes on: it does if something is ready
/// already.
#[tactic(auto, unfolding(machine_state::specs::Moves::dispatch))]
pub fn wait<S: Store>(
    traffic: &mut Traffic<S, ListQueue>,
    here: &Here,
    registers: Registers,
) -> bool
    requires next { here.now.task.registers.at + 1 < 2 ^ 32 }
    requires task { IsSteady here.now.task }
    requires words { IsTrue (holds_scheduling_words traffic.old.holding registers.workspace) }
    requires word { IsTrue (may_write_word traffic.old.holding (place_of registers.workspace)) }
    ensures turn { (m : Contents) → let w = traffic.old.world in
        let l = without_selection_word (scheduled registers w.memory) in
        waited (here_in m here.now) l w ≡ answered ran (counted traffic.new.world) }
    ensures goes_on { result ≡ is_ready_in here.now.task.mode }
    ensures holder { traffic.new.holder ≡ traffic.old.holder }
    ensures holding { traffic.new.holding ≡ traffic.old.holding }
{
    traffic.clear_scheduling_words(registers);
    clear_selection_word(traffic, registers.workspace);
    let mode = Mode::Disabling { selection: None };
    if let Mode::Enabling { is_ready: true } = here.task.mode {
        traffic.go_on(here, mode, registers);
        return true;
    }
    traffic.put_in(here, here.next(), registers, mode, Condition::Alternating);
    traffic.give_way(here);
    false
}

/// Whether a process in this mode selects this distance: if there is one and nothing is selected yet.
fn selects(mode: Mode, ready: Option<i32>) -> bool
    ensures { result ≡ selects mode ready }
{
    ready.is_some() && matches!(mode, Mode::Disabling { selection: None })
}

/// Selects this distance, if there is one and nothing is selected yet. Register A says whether it is selected.
fn choose<S: Store>(
    traffic: &mut Traffic<S, ListQueue>,
    here: &Here,
    ready: Option<i32>,
    registers: Registers,
)
    requires next { here.now.task.registers.at + 1 < 2 ^ 32 }
    requires task { IsSteady here.now.task }
    requires word { IsTrue (may_write_word traffic.old.holding (place_of registers.workspace)) }
    ensures { let w = traffic.old.world in
        let l = without_selection_word (untouched registers w.memory) in
        traffic.new ≡ record traffic.old { world = after_choice here.now ready l w } }
{
    let is_selected = selects(here.task.mode, ready);
    let mode = if is_selected {
        Mode::Disabling { selection: ready }
    } else {
        here.task.mode
    };
    let stack = Stack {
        a: Some(i32::from(is_selected)),
        b: None,
        c: None,
    };
    clear_selection_word(traffic, registers.workspace);
    traffic.go_on(here, mode, Registers { stack, ..registers });
}

/// Disables a skip, which is ready if the guard holds. If nothing is selected yet, it is selected by its distance.
#[tactic(auto, using(crate::proofs::Choosing::unready_is_not_selected))]
pub fn disable_skip<S: Store>(
    traffic: &mut Traffic<S, ListQueue>,
    here: &Here,
    guard: bool,
    distance: i32,
    registers: Registers,
)
    requires next { here.now.task.registers.at + 1 < 2 ^ 32 }
    requires task { IsSteady here.now.task }
    requires word { IsTrue (may_write_word traffic.old.holding (place_of registers.workspace)) }
    ensures turn { (m : Contents) → let w = traffic.old.world in
        let l = without_selection_word (untouched registers w.memory) in
        skip_disabled (here_in m here.now) guard distance l w ≡ answered ran (counted traffic.new.world) }
    ensures rest { traffic.new ≡ record traffic.old { world = traffic.new.world } }
{
    choose(traffic, here, guard.then_some(distance), registers);
}

/// Disables the link or channel at the address, if the guard holds. If it is ready and nothing is selected yet, it is
/// selected by its distance.
///
/// If there is no link or channel at the address, the fault is `EndNotHeld`; if the process has not enabled it,
/// `AlternationOrder`. Then, if no code follows the instruction, it is `OutsideCode`.
#[tactic(auto, using(crate::proofs::Choosing::unready_is_not_selected))]
pub fn disable_channel<S: Store>(
    traffic: &mut Traffic<S, ListQueue>,
    tables: &Tables,
    here: &Here,
    guard: bool,
    address: u32,
    distance: i32,
    registers: Registers,
) -> Result<(), Fault>
    requires code { length tables.now.code.now < 2 ^ 32 }
    requires task { IsSteady here.now.task }
    requires word { IsTrue (may_write_word traffic.old.holding (place_of registers.workspace)) }
    ensures settles { let h = here_in (contents_of tables.now) here.now in
        let w = traffic.old.world in
        let l = without_selection_word (untouched registers w.memory) in
        Settles w traffic.new.world ran result (channel_disabled h guard address distance l w) }
    ensures rest { traffic.new ≡ record traffic.old { world = traffic.new.world } }
{
    if !guard {
        here.check(here.is_followed(tables), FaultKind::OutsideCode)?;
        choose(traffic, here, None, registers);
        return Ok(());
    }
    let source = Source::at(traffic, address).ok_or(here.fault(FaultKind::EndNotHeld))?;
    here.check(
        source.enabled() == Some(here.process),
        FaultKind::AlternationOrder,
    )?;
    here.check(here.is_followed(tables), FaultKind::OutsideCode)?;
    choose(
        traffic,
        here,
        source.is_ready().then_some(distance),
        registers,
    );
    source.set_enabled(traffic, None);
    Ok(())
}

/// Ends the alternation, and goes on at this code offset.
///
/// If the process has left something enabled, the fault is `AlternationOrder`. Then, if the offset lies outside the
/// code, it is `OutsideCode`.
pub fn end<S: Store>(
    traffic: &mut Traffic<S, ListQueue>,
    tables: &Tables,
    here: &Here,
    to: u32,
    registers: Registers,
) -> Result<(), Fault>
    requires { IsSteady here.now.task }
    ensures settles { let h = here_in (contents_of tables.now) here.now in
        let w = traffic.old.world in
        Settles w traffic.new.world ran result (alternation_ended h to (untouched registers w.memory) w) }
    ensures rest { traffic.new ≡ record traffic.old { world = traffic.new.world } }
{
    let is_disabled = !traffic.has_enabled(here.process);
    here.check(is_disabled, FaultKind::AlternationOrder)?;
    here.check((to as usize) < tables.code.len(), FaultKind::OutsideCode)?;
    traffic.put_in(here, to, registers, Mode::Plain, here.task.condition);
    Ok(())
}
