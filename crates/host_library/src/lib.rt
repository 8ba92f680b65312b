//! What hosts call to verify a module, to replay a run of it, and to load it into a machine and step that. Only a
//! machine that is loaded has memory of its own. `hosts/tpm.h` declares the calls for C, and says what each pointer has
//! to be.
#![tactic(auto)]

mod certifying;
mod effects;
mod events;
mod failure;
mod measuring;
mod replaying;
mod status;
mod stepping;
#[cfg(test)]
mod tests;

ghost use Rattle.std.specs.Prelude.{◌≡◌, ◌≢◌, ◌≤◌, ◌<◌, ◌⊎◌, length, None, IsSomeAnd};
ghost use Rattle.module_format.specs.Contents.{Contents};
ghost use Rattle.module_format.specs.Keeping.{Format};
ghost use Rattle.certified_worlds.specs.Certified.{IsCertified};
ghost use Rattle.host_library.specs.Files.{IsCertifiedFile, IsNoFile, IsRefusedFile};
ghost use Rattle.host_library.specs.Events.{IsNoEvent, event_of};
ghost use Rattle.host_library.specs.Replays.{HasReplayed, IsHandedOver};
ghost use Rattle.host_library.specs.Sizes.{AreSizes};
ghost use Rattle.host_library.specs.Machines.{IsLoaded, Moves, HasHappened, HasProgressed, IsState};
ghost use Rattle.kept_runs.specs.Machine.{held_in};

use effects::{HostEffect, HostProgress, HostState, effect_of, progress_of};
use events::HostEvent;
use kept_runs::HostMachine;
use measuring::{HostSizes, sizes_of};
use replaying::{HostReport, hand_over, run_of};
use status::{ACCEPTED, NO_EVENT, NO_MODULE, NOT_CERTIFIED, NOT_LOADED, OUT_OF_MEMORY, TOO_SMALL};
use std::alloc::Global;
use stepping::{loaded_run, state_of};

/// Whether the bytes are the file of a certified module, by a status. `ACCEPTED`: they are, and its budget is written.
/// `NO_MODULE`: they are no module file, and the number and the offset of their first fault are written.
/// `NOT_CERTIFIED`: they are the file of a module that breaks a rule, and the rule's number and the lowest offset where
/// one is broken are written. `OUT_OF_MEMORY`: memory ran out. Nothing else is written.
#[unsafe(no_mangle)]
pub extern "C" fn tpm_verify(
    alloc: Global,
    bytes: &[u8],
    budget: &mut u64,
    number: &mut u8,
    offset: &mut usize,
) -> u8
    ensures statuses { result ≤ OUT_OF_MEMORY }
    ensures accepted { result ≡ ACCEPTED → IsCertifiedFile bytes.now (λ m. budget.new ≡ m.budget) }
    ensures no_module { result ≡ NO_MODULE → IsNoFile bytes.now number.new offset.new }
    ensures not_certified { result ≡ NOT_CERTIFIED → IsRefusedFile bytes.now number.new offset.new }
    // A certified module is accepted, unless memory runs out.
    ensures refuses_no_certified_module { (m : Contents) → Format bytes.now m → IsCertified m
        → result ≢ ACCEPTED → result ≡ OUT_OF_MEMORY }
    ensures same_budget { result ≢ ACCEPTED → budget.new ≡ budget.old }
    ensures same_number { result ≢ NO_MODULE → result ≢ NOT_CERTIFIED → number.new ≡ number.old }
    ensures same_offset { result ≢ NO_MODULE → result ≢ NOT_CERTIFIED → offset.new ≡ offset.old }
{
    match sizes_of(alloc, bytes) {
        Ok(found) => {
            *budget = found.budget;
            ACCEPTED
        }
        Err(failure) => failure.tell(number, offset),
    }
}

/// How many bytes a machine of the module in these bytes takes, by a status. `ACCEPTED`: the module is certified, and
/// they are written to `sizes`. `NO_MODULE`, `NOT_CERTIFIED` and `OUT_OF_MEMORY`: as of `tpm_verify`. Nothing else is
/// written.
#[unsafe(no_mangle)]
pub extern "C" fn tpm_measure(
    alloc: Global,
    bytes: &[u8],
    sizes: &mut HostSizes,
    number: &mut u8,
    offset: &mut usize,
) -> u8
    ensures statuses { result ≤ OUT_OF_MEMORY }
    ensures accepted { result ≡ ACCEPTED → IsCertifiedFile bytes.now (AreSizes sizes.new) }
    ensures no_module { result ≡ NO_MODULE → IsNoFile bytes.now number.new offset.new }
    ensures not_certified { result ≡ NOT_CERTIFIED → IsRefusedFile bytes.now number.new offset.new }
    // A certified module is accepted, unless memory runs out.
    ensures refuses_no_certified_module { (m : Contents) → Format bytes.now m → IsCertified m
        → result ≢ ACCEPTED → result ≡ OUT_OF_MEMORY }
    ensures same_sizes { result ≢ ACCEPTED → sizes.new ≡ sizes.old }
    ensures same_number { result ≢ NO_MODULE → result ≢ NOT_CERTIFIED → number.new ≡ number.old }
    ensures same_offset { result ≢ NO_MODULE → result ≢ NOT_CERTIFIED → offset.new ≡ offset.old }
{
    match sizes_of(alloc, bytes) {
        Ok(found) => {
            *sizes = found;
            ACCEPTED
        }
        Err(failure) => failure.tell(number, offset),
    }
}

/// The run of a certified module over these events, by a status. `ACCEPTED`: what became of it is written to `report`,
/// and what it sent to the beginning of `out`, one link's bytes after the other's. `TOO_SMALL`: the same, but all that
/// it sent is longer than `out`, and `out` is as before. `NO_EVENT`: the index of the first of the events that is none
/// is written to `offset`. `NO_MODULE`, `NOT_CERTIFIED` and `OUT_OF_MEMORY`: as of `tpm_verify`. Nothing else is
/// written.
#[unsafe(no_mangle)]
pub extern "C" fn tpm_replay(
    alloc: Global,
    bytes: &[u8],
    events: &[HostEvent],
    out: &mut [u8],
    report: &mut HostReport,
    number: &mut u8,
    offset: &mut usize,
) -> u8
    ensures statuses { result ≤ TOO_SMALL }
    ensures accepted { result ≡ ACCEPTED → IsCertifiedFile bytes.now
        (λ m. HasReplayed m events.now report.new (IsHandedOver out.old out.new)) }
    ensures too_small { result ≡ TOO_SMALL → IsCertifiedFile bytes.now
        (λ m. HasReplayed m events.now report.new (λ sent. length out.old < length sent)) }
    ensures no_event { result ≡ NO_EVENT → IsCertifiedFile bytes.now (λ m. IsNoEvent events.now offset.new) }
    ensures no_module { result ≡ NO_MODULE → IsNoFile bytes.now number.new offset.new }
    ensures not_certified { result ≡ NOT_CERTIFIED → IsRefusedFile bytes.now number.new offset.new }
    // A certified module is not refused.
    ensures refuses_no_certified_module { (m : Contents) → Format bytes.now m → IsCertified m
        → (result ≢ NO_MODULE) × (result ≢ NOT_CERTIFIED) }
    ensures same_out { result ≢ ACCEPTED → out.new ≡ out.old }
    ensures same_report { result ≢ ACCEPTED → result ≢ TOO_SMALL → report.new ≡ report.old }
    ensures same_number { result ≢ NO_MODULE → result ≢ NOT_CERTIFIED → number.new ≡ number.old }
    ensures same_offset { result ≢ NO_MODULE → result ≢ NOT_CERTIFIED → result ≢ NO_EVENT → offset.new ≡ offset.old }
{
    match run_of(alloc, bytes, events) {
        Ok(run) => {
            *report = run.report;
            hand_over(&run.sent, out)
        }
        Err(failure) => failure.tell(number, offset),
    }
}

/// Loads the module in these bytes into a machine, by a status. `ACCEPTED`: the machine is that module before any
/// event.
/// `NO_MODULE`, `NOT_CERTIFIED` and `OUT_OF_MEMORY`: as of `tpm_verify`, and the machine is as before. Nothing else is
/// written. A machine that was loaded before is freed at `ACCEPTED`.
#[unsafe(no_mangle)]
pub extern "C" fn tpm_load(
    alloc: Global,
    bytes: &[u8],
    machine: &mut HostMachine,
    number: &mut u8,
    offset: &mut usize,
) -> u8
    ensures statuses { result ≤ OUT_OF_MEMORY }
    ensures accepted { result ≡ ACCEPTED → IsCertifiedFile bytes.now
        (λ m. IsSomeAnd (held_in machine.new) (IsLoaded m)) }
    ensures no_module { result ≡ NO_MODULE → IsNoFile bytes.now number.new offset.new }
    ensures not_certified { result ≡ NOT_CERTIFIED → IsRefusedFile bytes.now number.new offset.new }
    // A certified module is accepted, unless memory runs out.
    ensures refuses_no_certified_module { (m : Contents) → Format bytes.now m → IsCertified m
        → result ≢ ACCEPTED → result ≡ OUT_OF_MEMORY }
    ensures same_machine { result ≢ ACCEPTED → held_in machine.new ≡ held_in machine.old }
    ensures same_number { result ≢ NO_MODULE → result ≢ NOT_CERTIFIED → number.new ≡ number.old }
    ensures same_offset { result ≢ NO_MODULE → result ≢ NOT_CERTIFIED → offset.new ≡ offset.old }
{
    match loaded_run(alloc, bytes) {
        Ok(run) => {
            machine.take(alloc);
            machine.put(run);
            ACCEPTED
        }
        Err(failure) => failure.tell(number, offset),
    }
}

/// Frees what is loaded into a machine, if something is.
#[unsafe(no_mangle)]
pub extern "C" fn tpm_free(alloc: Global, machine: &mut HostMachine)
    ensures { held_in machine.new ≡ None }
{
    machine.take(alloc);
}

/// One event of a machine, by a status. `ACCEPTED`: it happened, and what it did is written to `effect`. `NO_EVENT`: it
/// is no event. `NOT_LOADED`: no module is loaded. Then nothing is written, and the machine is as before.
#[unsafe(no_mangle)]
pub extern "C" fn tpm_step(
    alloc: Global,
    machine: &mut HostMachine,
    event: &HostEvent,
    effect: &mut HostEffect,
) -> u8
    ensures statuses { (result ≡ ACCEPTED) ⊎ ((result ≡ NO_EVENT) ⊎ (result ≡ NOT_LOADED)) }
    ensures accepted { result ≡ ACCEPTED → IsSomeAnd (event_of event.now)
        (λ e. Moves (held_in machine.old) (held_in machine.new) (HasHappened e effect.new)) }
    ensures no_event { result ≡ NO_EVENT → event_of event.now ≡ None }
    ensures not_loaded { result ≡ NOT_LOADED → held_in machine.old ≡ None }
    ensures same_machine { result ≢ ACCEPTED → held_in machine.new ≡ held_in machine.old }
    ensures same_effect { result ≢ ACCEPTED → effect.new ≡ effect.old }
{
    let Some(event) = event.event() else {
        return NO_EVENT;
    };
    let Some(mut run) = machine.take(alloc) else {
        return NOT_LOADED;
    };
    *effect = effect_of(run.advance(event));
    machine.put(run);
    ACCEPTED
}

/// Steps of a machine in which no process gives way, and the first that is ready is next, until one emits a message, no
/// process is running, or at least `limit` bytes are executed: then after the first that completes a loop's end, a call
/// or what asks something of others; by a status. `ACCEPTED`: how far it went is written to `progress`.
/// `NOT_LOADED`: no module is loaded, and nothing is written.
#[unsafe(no_mangle)]
pub extern "C" fn tpm_run(
    alloc: Global,
    machine: &mut HostMachine,
    limit: u64,
    progress: &mut HostProgress,
) -> u8
    ensures statuses { (result ≡ ACCEPTED) ⊎ (result ≡ NOT_LOADED) }
    ensures accepted { result ≡ ACCEPTED
        → Moves (held_in machine.old) (held_in machine.new) (HasProgressed limit progress.new) }
    ensures not_loaded { result ≡ NOT_LOADED → held_in machine.old ≡ None }
    ensures same_machine { result ≢ ACCEPTED → held_in machine.new ≡ held_in machine.old }
    ensures same_progress { result ≢ ACCEPTED → progress.new ≡ progress.old }
{
    let Some(mut run) = machine.take(alloc) else {
        return NOT_LOADED;
    };
    *progress = progress_of(run.run(limit));
    machine.put(run);
    ACCEPTED
}

/// What can be asked of a machine, by a status. `ACCEPTED`: it is written to `state`. `NOT_LOADED`: no module is
/// loaded, and nothing is written. The machine is as before.
#[unsafe(no_mangle)]
pub extern "C" fn tpm_look(alloc: Global, machine: &mut HostMachine, state: &mut HostState) -> u8
    ensures statuses { (result ≡ ACCEPTED) ⊎ (result ≡ NOT_LOADED) }
    ensures accepted { result ≡ ACCEPTED → IsSomeAnd (held_in machine.old) (IsState state.new) }
    ensures not_loaded { result ≡ NOT_LOADED → held_in machine.old ≡ None }
    ensures same_machine { held_in machine.new ≡ held_in machine.old }
    ensures same_state { result ≢ ACCEPTED → state.new ≡ state.old }
{
    let Some(run) = machine.take(alloc) else {
        return NOT_LOADED;
    };
    *state = state_of(&run);
    machine.put(run);
    ACCEPTED
}

/// The message that the last event of a machine sent, by a status. `ACCEPTED`: it is written to the beginning of `out`,
/// and nothing if no message was sent. `TOO_SMALL`: it is longer than `out`. `NOT_LOADED`: no module is loaded. Nothing
/// else is written. The machine is as before.
#[unsafe(no_mangle)]
pub extern "C" fn tpm_message(alloc: Global, machine: &mut HostMachine, out: &mut [u8]) -> u8
    ensures statuses { (result ≡ ACCEPTED) ⊎ ((result ≡ TOO_SMALL) ⊎ (result ≡ NOT_LOADED)) }
    ensures accepted { result ≡ ACCEPTED
        → IsSomeAnd (held_in machine.old) (λ run. IsHandedOver out.old out.new run.last) }
    ensures too_small { result ≡ TOO_SMALL
        → IsSomeAnd (held_in machine.old) (λ run. length out.old < length run.last) }
    ensures not_loaded { result ≡ NOT_LOADED → held_in machine.old ≡ None }
    ensures same_machine { held_in machine.new ≡ held_in machine.old }
    ensures same_out { result ≢ ACCEPTED → out.new ≡ out.old }
{
    let Some(run) = machine.take(alloc) else {
        return NOT_LOADED;
    };
    let status = hand_over(run.message(), out);
    machine.put(run);
    status
}
