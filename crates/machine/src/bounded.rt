//! The reference machine up to a number of bytes, as readers and writers can drive it.

ghost use Rattle.std.specs.Prelude.{◌≡◌, min, IfOk, IsTrue, []};
ghost use Rattle.machine_state.specs.World.{World, loaded};
ghost use Rattle.machine_state.specs.Happens.{most_executed};
ghost use Rattle.link_runs.specs.Deadlocks.{is_from_outside};
ghost use Rattle.link_runs.specs.Driving.{IsReached, Takes};
ghost use Rattle.machine.specs.Bounding.{cause_of, progress_by, exchange_by, Shows, HasStopped, StepDone};

use crate::checked::{Act, Checked, MOST_EXECUTED};
use certificate::Module;
use link_runs::{Machine, Progress};
use machine_state::{Event, Exchange, Fault, Link};
use std::alloc::{AllocError, Global};
use std::marker::Model;
use traffic::Stop;

/// Why a bounded machine stops of itself.
#[derive(Clone, Copy, Debug, PartialEq, Eq)]
pub enum Cause {
    /// A process is at fault.
    Fault(Fault),
    /// As many bytes were executed as may be, and a process runs.
    Limit,
    /// Memory ran out, and the event at which it did has not happened.
    Memory,
}

impl From<Stop> for Cause {
    ghost from_gives = { λ stop cause. cause ≡ cause_of stop };

    fn from(stop: Stop) -> Cause {
        match stop {
            Stop::Fault(fault) => Cause::Fault(fault),
            Stop::Memory => Cause::Memory,
        }
    }
}

/// What is shown the machine before each Step.
pub trait Observer: Drop {
    fn observe(&mut self, machine: &Checked<'_>);
}

/// A machine that runs any module, however faulty, up to a number of bytes.
#[derive(Drop)]
pub struct Bounded<'a, O: Observer> {
    checked: Checked<'a>,
    observer: O,
    limit: u64,
    /// The message that the last event sent.
    message: Option<Exchange>,
}

impl<'a, O: Observer> Model for Bounded<'a, O> {
    ghost use Rattle.std.specs.Prelude.{◌≤◌};
    ghost use Rattle.machine_state.specs.Happens.{most_executed};
    ghost use Rattle.machine.specs.Bounding.{BoundedExecution, HasMessage, bytes_of};

    ghost Value = { BoundedExecution };

    ghost view = { λ b. record {
      contents = b.checked.contents;
      world = b.checked.world;
      limit = b.limit;
      last = bytes_of b.message b.checked.world.memory;
    } };

    ghost invariant = { λ b. HasMessage b.message b.checked.world.memory × (b.limit ≤ most_executed) };
}

/// How far a Step that did this goes on by itself, or none if the next one follows.
fn progress_of(act: Act) -> Option<Progress>
    ensures { result ≡ progress_by act }
{
    match act {
        Act::Emitted { link, .. } => Some(Progress::Emitted { link }),
        _ => None,
    }
}

/// The message that was sent, if one was.
fn exchange_of(act: Act) -> Option<Exchange>
    ensures { result ≡ exchange_by act }
{
    match act {
        Act::Emitted { exchange, .. } => Some(exchange),
        _ => None,
    }
}

impl<'a, O: Observer> Bounded<'a, O> {
    /// The machine of a module that is loaded. It stops before it has executed more bytes than the limit says, or than
    /// any machine does. The observer is shown it before each Step.
    pub fn load(
        alloc: Global,
        module: &'a Module<'a>,
        limit: u64,
        observer: O,
    ) -> Result<Self, AllocError>
        ensures value { let m = «module».now in
            let most = min limit most_executed in
            IfOk result (λ b. b ≡ record { contents = m; world = loaded m; limit = most; last = [] }) }
        ensures shows { IfOk result (λ b. Shows b (loaded «module».now)) }
    {
        let checked = Checked::load(alloc, module)?;
        Ok(Bounded {
            checked,
            observer,
            limit: limit.min(MOST_EXECUTED),
            message: None,
        })
    }

    /// The machine, which can be asked for all that is known of its world.
    pub fn checked(&self) -> &Checked<'a>
        ensures { result.now ≡ record { contents = self.now.contents; world = self.now.world } }
    {
        &self.checked
    }

    /// A Step of the process that runs, or how far the machine has gone if it goes no further by itself.
    fn step(&mut self) -> Result<Option<Progress>, Cause>
        requires { IsReached self.old.contents self.old.limit self.old.world }
        ensures { StepDone self.old result self.new }
    {
        if !self.checked.running() {
            return Ok(Some(Progress::Idle));
        }
        if self.checked.executed() >= self.limit {
            return Err(Cause::Limit);
        }
        self.observer.observe(&self.checked);
        self.message = None;
        let act = self.checked.advance(Event::Step {
            slice: false,
            pick: 0,
        })?;
        self.message = exchange_of(act);
        Ok(progress_of(act))
    }

    /// An event from outside.
    fn take(&mut self, event: Event) -> Result<(), Cause>
        requires { IsTrue (is_from_outside event) }
        ensures contents { self.new.contents ≡ self.old.contents }
        ensures limit { self.new.limit ≡ self.old.limit }
        ensures takes { (w : World) → Shows self.old w
            → Takes self.old.contents w event result (Shows self.new) (HasStopped self.new) }
    {
        self.message = None;
        self.checked.advance(event)?;
        Ok(())
    }
}

impl<'a, O: Observer> Machine for Bounded<'a, O> {
    ghost use Rattle.link_runs.specs.Awaiting.{awaited};
    ghost use Rattle.std.proofs.Common.{ap};
    ghost use Rattle.machine.specs.Bounding.{Shows, HasStopped};

    type Stop = Cause;

    ghost contents = { λ b. b.contents };

    ghost limit = { λ b. b.limit };

    ghost shows = { λ b w. Shows b w };

    ghost stops = { λ b w cause. HasStopped b w cause };

    ghost last = { λ b. b.last };

    ghost awaits = { λ b. awaited b.world };

    fn proceed(&mut self) -> Result<Progress, Cause> {
        'steps: loop {
            let done = self.step()?;
            if let Some(progress) = done {
                return Ok(progress);
            }
        }
    }

    fn arrive(&mut self, link: Link, byte: u8) -> Result<(), Cause> {
        self.take(Event::Arrive { link, byte })
    }

    fn acknowledge(&mut self, link: Link) -> Result<(), Cause> {
        self.take(Event::Acknowledge { link })
    }

    fn message(&self) -> &[u8] {
        match self.message {
            Some(exchange) => self.checked.bytes(exchange),
            None => &[],
        }
    }

    fn executed(&self) -> u64 {
        self.checked.executed()
    }

    fn finished(&self) -> bool {
        self.checked.finished()
    }

    fn running(&self) -> bool {
        self.checked.running()
    }

    fn wants(&self, link: Link) -> bool {
        self.checked.wants(link)
    }

    ghost reached = { λ b w shown. shown.reached };

    ghost awaits_so = { λ b w shown. ap awaited shown.is };
}
