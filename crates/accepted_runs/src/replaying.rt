//! Runs of accepted modules over given events.

ghost use Rattle.std.specs.Prelude.{◌≡◌, OnOk, IfOk, Ok};
ghost use Rattle.machine_state.specs.World.{World};
ghost use Rattle.machine_state.specs.Happens.{emitted, turn, happens};
ghost use Rattle.accepted_runs.specs.Running.{Shows};
ghost use Rattle.accepted_runs.specs.Replaying.{GoesOut, Tells};

use crate::report::Replay;
use crate::running::Run;
use link_runs::Reaction;
use machine_state::{Event, Link};
use std::alloc::{AllocError, Global};
use verifier::Verified;

/// The bytes go after what went out on the link.
#[inline(never)]
fn put_out(out: &mut [Vec<u8>; 4], link: Link, bytes: &[u8]) -> Result<(), AllocError>
    ensures { OnOk result (GoesOut (Ok (emitted link bytes.now)) out.old out.new) }
{
    out[link.index()].extend_from_slice(bytes)
}

/// One event of a run: what it emits goes after what went out before.
#[inline(always)]
fn follow(machine: &mut Run<'_>, event: Event, out: &mut [Vec<u8>; 4]) -> Result<(), AllocError>
    ensures contents { machine.new.contents ≡ machine.old.contents }
    ensures world { OnOk result ((w : World) → Shows machine.old w
        → Shows machine.new (happens machine.old.contents w event)) }
    ensures out { OnOk result ((w : World) → Shows machine.old w
        → GoesOut (turn machine.old.contents w event).answer out.old out.new) }
{
    match machine.advance(event) {
        Reaction::Emitted { link } => put_out(out, link, machine.sent()),
        _ => Ok(()),
    }
}

/// The run of an accepted module over these events, from the loaded machine on: whether it finished, how many
/// bytes it executed, and what it emitted on each link. It is never at fault.
pub fn replay(alloc: Global, verified: &Verified, events: &[Event]) -> Result<Replay, AllocError>
    ensures { IfOk result (Tells verified.now events.now) }
{
    let mut machine = Run::load(alloc, verified)?;
    let mut out = [
        Vec::new(alloc),
        Vec::new(alloc),
        Vec::new(alloc),
        Vec::new(alloc),
    ];
    for event in events {
        follow(&mut machine, *event, &mut out)?;
    }
    Ok(Replay {
        finished: machine.finished(),
        executed: machine.executed(),
        out,
    })
}
