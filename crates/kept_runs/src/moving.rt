//! What a machine does, with what it reads of its module beside it.

ghost use Rattle.std.specs.Prelude.{◌≡◌, ◌+◌, ◌-◌, ◌^◌, ◌<◌, ◌≤◌};
ghost use Rattle.machine_state.specs.World.{World};
ghost use Rattle.verifier.specs.Headline.{IsEvent};
ghost use Rattle.link_runs.specs.Driving.{HasReacted};
ghost use Rattle.accepted_runs.specs.Reacting.{is_sent, message_of, HasMessage};
ghost use Rattle.accepted_runs.specs.Running.{AgreesOn, Runs};
ghost use Rattle.kept_runs.specs.RunningOn.{HasRunOn, stop_by, has_emitted};
ghost use Rattle.kept_runs.specs.GoingOn.{GoesBy};

use crate::running_on::{RunReport, RunStop};
use link_runs::Reaction;
use machine_state::Event;
use plain_machine::DecodedCode;
use plain_run::{Machine, Program};

/// The Step after which no process gives way, and the first that is ready is next.
const PLAIN_STEP: Event = Event::Step {
    slice: false,
    pick: 0,
};

/// Each event is one that can happen: what arrives is a byte.
fn can_happen(_event: Event)
    ensures { IsEvent _event }
{}

/// Whether an event that did this sent a message.
pub fn has_sent(reaction: Reaction) -> bool
    ensures { result ≡ is_sent reaction }
{
    matches!(reaction, Reaction::Emitted { .. })
}

/// Whether a run that stopped so sent a message.
pub fn has_emitted(stop: RunStop) -> bool
    ensures { result ≡ has_emitted stop }
{
    matches!(stop, RunStop::Emitted { .. })
}

/// Why a run stopped after a Step that did this, or nothing if the next one follows.
fn stop_of(reaction: Reaction) -> Option<RunStop>
    ensures { result ≡ stop_by reaction }
{
    match reaction {
        Reaction::Ran => None,
        Reaction::Emitted { link } => Some(RunStop::Emitted { link }),
        _ => Some(RunStop::Idle),
    }
}

/// One event, and what it did. In each world that the machine agrees with it is no fault, this is its effect, and the
/// machine agrees with the world after it.
pub fn advance(machine: &mut Machine, program: &Program, event: Event) -> Reaction
    requires { Runs program.now machine.old }
    ensures runs { Runs program.now machine.new }
    ensures message { HasMessage (is_sent result) machine.new }
    ensures reacts { let m = program.now in (w : World) → AgreesOn m machine.old w
        → HasReacted m w event result (message_of (is_sent result) machine.new) (AgreesOn m machine.new) }
{
    can_happen(event);
    machine.apply(program, event)
}

/// What is reported of a run that began after so many bytes.
fn report_of(machine: &Machine, start: u64, stop: RunStop) -> RunReport
    requires { start ≤ machine.now.counters.executed }
    ensures { result ≡ record { executed = machine.now.counters.executed - start; stop = stop } }
{
    let executed = machine.executed() - start;
    RunReport { executed, stop }
}

/// How many bytes are executed after so many more, or the greatest number.
fn end_after(executed: u64, more: u64) -> u64
    ensures low { result ≤ executed + more }
    ensures high { result < 2 ^ 64 - 1 → result ≡ executed + more }
{
    executed.saturating_add(more)
}

/// Steps in which no process gives way, and the first that is ready is next: of all but the last one the process that runs
/// asks nothing of others. They end after the first loop's end or call with which `limit` bytes or more are executed since
/// the module was loaded, and then nothing is reported.
#[inline(always)]
fn go_on(
    machine: &mut Machine,
    program: &Program,
    decoded: &DecodedCode,
    limit: u64,
) -> Option<Reaction>
    requires runs { Runs program.now machine.old }
    requires decoded { decoded.now ≡ program.now.code }
    ensures { GoesBy program.now machine.old limit result machine.new }
{
    machine.go_on_until(program, decoded, limit)
}

/// Steps in which no process gives way, and the first that is ready is next, until one emits a message, no process is
/// running, or so many bytes are executed: then after the first that completes a loop's end, a call or what asks
/// something of others. They are those of the code, decoded.
pub fn run(machine: &mut Machine, program: &Program, decoded: &DecodedCode, limit: u64) -> RunReport
    requires runs { Runs program.now machine.old }
    requires decoded { decoded.now ≡ program.now.code }
    ensures runs { Runs program.now machine.new }
    ensures message { HasMessage (has_emitted result.stop) machine.new }
    ensures reaches { let m = program.now in (w : World) → AgreesOn m machine.old w
        → HasRunOn m w limit result (message_of (has_emitted result.stop) machine.new) (AgreesOn m machine.new) }
{
    let start = machine.executed();
    let end = end_after(start, limit);
    'steps: while machine.executed() < end {
        let Some(reaction) = go_on(machine, program, decoded, end) else {
            return report_of(machine, start, RunStop::AtLimit);
        };
        if let Some(stop) = stop_of(reaction) {
            return report_of(machine, start, stop);
        }
    }
    report_of(machine, start, RunStop::AtLimit)
}
