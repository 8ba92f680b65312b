//! Whether what a machine returns for events is what a machine may return, as far as that is seen from outside.

use certificate::Module;
use conformance::Outcome;
use machine::{Checked, Stop};
use machine_state::{COUNT_RANGE, ERROR_FLAG, Effect, Event, Fault, Link};
use std::alloc::Global;

/// What a machine says of itself beside an event.
#[derive(Clone, Copy, PartialEq)]
struct Sight {
    executed: u64,
    is_finished: bool,
    is_running: bool,
    /// Whether a byte is wanted on the link on which the event brings one.
    is_wanted: bool,
}

impl Sight {
    fn of(machine: &Checked, event: Event) -> Self {
        Sight {
            executed: machine.executed(),
            is_finished: machine.finished(),
            is_running: machine.running(),
            is_wanted: match event {
                Event::Arrive { link, .. } => machine.wants(link),
                _ => false,
            },
        }
    }

    /// Whether nothing was executed or finished since then, and no process stopped.
    fn is_beside(self, before: Sight) -> bool {
        self.executed == before.executed
            && self.is_finished == before.is_finished
            && (self.is_running || !before.is_running)
    }

    /// Whether one byte was executed since then.
    fn is_a_byte_after(self, before: Sight) -> bool {
        before.executed.checked_add(1) == Some(self.executed)
            && (self.is_finished || !before.is_finished)
    }
}

/// What an event changed.
#[derive(Clone, Copy)]
enum Change {
    Nothing,
    /// A byte was executed.
    Byte,
    /// A byte went to a process that waits for it.
    Taken,
    /// A byte is kept.
    Kept,
    /// A sender goes on.
    Acknowledged,
}

impl Change {
    /// Whether a machine that says the one of itself says the other after this change.
    fn leads(self, before: Sight, after: Sight) -> bool {
        match self {
            Change::Nothing => after == before,
            Change::Byte => after.is_a_byte_after(before),
            Change::Taken => after.is_beside(before),
            Change::Kept => after.is_beside(before) && !after.is_wanted,
            Change::Acknowledged => after.is_beside(before) && after.is_running,
        }
    }
}

/// What an arrival changed, unless it cannot have this effect.
fn arrival(before: Sight, effect: Effect) -> Option<Change> {
    match effect {
        Effect::Taken if before.is_wanted => Some(Change::Taken),
        Effect::Kept => Some(Change::Kept),
        Effect::Busy if !before.is_wanted => Some(Change::Nothing),
        _ => None,
    }
}

/// What was seen of the run of a module so far.
#[derive(Drop)]
struct WatchedRun<'m> {
    module: &'m Module<'m>,
    /// Of each link, whether a message went out there that is not acknowledged.
    sent: [bool; 4],
    fault: Option<Fault>,
}

impl<'m> WatchedRun<'m> {
    fn of(module: &'m Module<'m>) -> Self {
        WatchedRun {
            module,
            sent: [false; 4],
            fault: None,
        }
    }

    /// Whether a message that went out on a link is not acknowledged.
    fn has_sent(&self, link: Link) -> bool {
        self.sent.get(link.index()).copied().unwrap_or(false)
    }

    /// A message goes out on a link, or is acknowledged there.
    fn set_sent(&mut self, link: Link, is_sent: bool) {
        if let Some(sent) = self.sent.get_mut(link.index()) {
            *sent = is_sent;
        }
    }

    /// What a message of this length changed, unless those of its link have another one, or one is there.
    fn message(&mut self, link: Link, length: usize) -> Option<Change> {
        let lengths = self.module.tables().lengths;
        let own = lengths.get(link.index()).copied().unwrap_or(0);
        if length == 0 || length != own as usize || self.has_sent(link) {
            return None;
        }
        self.set_sent(link, true);
        Some(Change::Byte)
    }

    /// What a Step changed, unless it cannot have this effect.
    fn step(&mut self, before: Sight, effect: Effect) -> Option<Change> {
        match effect {
            Effect::Ran if before.is_running => Some(Change::Byte),
            Effect::Emitted { link, bytes } if before.is_running => self.message(link, bytes.len()),
            Effect::Idle if !before.is_running => Some(Change::Nothing),
            _ => None,
        }
    }

    /// What an acknowledgement changed, unless it cannot have this effect.
    fn acknowledgement(&mut self, link: Link, effect: Effect) -> Option<Change> {
        match effect {
            Effect::Acknowledged if self.has_sent(link) => {
                self.set_sent(link, false);
                Some(Change::Acknowledged)
            }
            Effect::Ignored if !self.has_sent(link) => Some(Change::Nothing),
            _ => None,
        }
    }

    /// What an event without a fault changed, unless it cannot have this effect.
    fn effect(&mut self, event: Event, before: Sight, effect: Effect) -> Option<Change> {
        if self.fault.is_some() {
            return None;
        }
        match event {
            Event::Step { .. } => self.step(before, effect),
            Event::Arrive { .. } => arrival(before, effect),
            Event::Acknowledge { link } => self.acknowledgement(link, effect),
        }
    }

    /// Whether a fault has a number that there is, and is of an instruction in the code.
    fn is_in_code(&self, fault: Fault) -> bool {
        (ERROR_FLAG..=COUNT_RANGE).contains(&fault.number)
            && (fault.offset as usize) < self.module.tables().code.len()
    }

    /// Whether an event may report this fault: the one that there is, or the first one where a byte is executed.
    fn may_fail(&self, event: Event, before: Sight, fault: Fault) -> bool {
        match (self.fault, event) {
            (Some(first), _) => fault == first,
            (None, Event::Step { .. }) => before.is_running && self.is_in_code(fault),
            (None, _) => false,
        }
    }

    /// What a fault changed, unless this event cannot report it.
    fn fail(&mut self, event: Event, before: Sight, fault: Fault) -> Option<Change> {
        if !self.may_fail(event, before, fault) {
            return None;
        }
        self.fault = Some(fault);
        Some(Change::Nothing)
    }

    /// Lets an event happen: held if the machine returns what it may.
    fn apply(&mut self, machine: &mut Checked, event: Event) -> Outcome {
        let before = Sight::of(machine, event);
        let change = match machine.apply(event) {
            Ok(effect) => self.effect(event, before, effect),
            Err(Stop::Fault(fault)) => self.fail(event, before, fault),
            Err(Stop::Memory) => return Outcome::OutOfMemory,
        };
        match change {
            Some(change) => Outcome::of(change.leads(before, Sight::of(machine, event))),
            None => Outcome::Differs,
        }
    }
}

/// Whether a machine says of itself that it is about to run its first byte.
fn is_loaded(machine: &Checked) -> bool {
    machine.executed() == 0 && !machine.finished() && machine.running()
}

/// Lets the events happen to a machine that was loaded, up to the first for which it does not return what it may.
fn watch_all(machine: &mut Checked, module: &Module, events: &[Event]) -> Outcome {
    if !is_loaded(machine) {
        return Outcome::Differs;
    }
    let mut run = WatchedRun::of(module);
    for event in events {
        let outcome = run.apply(machine, *event);
        if outcome != Outcome::Held {
            return outcome;
        }
    }
    Outcome::Held
}

/// What comes of the events of a run of a module: held if the machine returns what a machine may.
pub(crate) fn watch(alloc: Global, module: &Module, events: &[Event]) -> Outcome {
    match Checked::load(alloc, module) {
        Ok(mut machine) => watch_all(&mut machine, module, events),
        Err(_) => Outcome::OutOfMemory,
    }
}
