//! What comes and goes on the links.

ghost use Rattle.std.specs.Prelude.{◌≡◌, ◌<◌, IfSome, OnErr, IsTrue, slice_get};
ghost use Rattle.machine_state.specs.Moves.{link_index, fill, rouse};
ghost use Rattle.machine_state.specs.Happens.{arrive_turn, acknowledge_turn};
ghost use Rattle.traffic.specs.Arriving.{effect_of_arrival, acknowledged_if, IsTurn, may_wake, has_sender};

use crate::traffic::Traffic;
use machine_state::{Condition, InputLink, Link, Mode, OutputLink, Store, Task};
use process_queue::ListQueue;
use std::alloc::AllocError;

/// What became of a byte that arrived.
#[derive(Clone, Copy, Debug, PartialEq, Eq)]
pub enum Arrival {
    /// It went to a process that waits for it.
    Taken,
    /// It is kept on the link.
    Kept,
    /// A byte is kept there already, and nothing changed.
    Busy,
}

impl<S: Store> Traffic<S, ListQueue> {
    /// What a process has enabled is ready. If it waits for that, it becomes ready; if it is still enabling, it will
    /// not wait.
    pub(crate) fn rouse(&mut self, enabled: Option<u64>)
        requires { IfSome enabled (λ _. 0 < self.old.room) }
        ensures world { self.new.world ≡ rouse enabled self.old.world }
        ensures holder { self.new.holder ≡ self.old.holder }
        ensures holding { self.new.holding ≡ self.old.holding }
    {
        let Some(process) = enabled else {
            return;
        };
        let Some(task) = self.task(process) else {
            return;
        };
        if let Condition::Alternating = task.condition {
            self.wake(process);
        } else if let Mode::Enabling { .. } = task.mode {
            let mode = Mode::Enabling { is_ready: true };
            self.put(process, Task { mode, ..task });
        }
    }

    /// The byte goes into the buffer of the process that waits on this input link; with the last one it
    /// becomes ready.
    fn fill(&mut self, process: u64, link: Link, byte: u8, input: InputLink)
        requires { 0 < self.old.room }
        ensures world { self.new.world ≡ fill process (link_index link) byte input self.old.world }
        ensures holder { self.new.holder ≡ self.old.holder }
        ensures holding { self.new.holding ≡ self.old.holding }
    {
        let Some(task) = self.task(process) else {
            return;
        };
        let Condition::OnLink { exchange, done } = task.condition else {
            return;
        };
        self.put_byte(exchange.address.wrapping_add(done), byte);
        if done + 1 == exchange.length {
            self.set_input(
                link,
                InputLink {
                    waiting: None,
                    ..input
                },
            );
            self.wake(process);
        } else {
            self.set_condition(
                process,
                Condition::OnLink {
                    exchange,
                    done: done + 1,
                },
            );
        }
    }

    /// A byte arrives on a link. Only where it may make a process ready can memory run out.
    pub fn arrive(&mut self, link: Link, byte: u8) -> Result<Arrival, AllocError>
        ensures turn { let turn = arrive_turn (link_index link) byte self.old.world in
            IsTurn effect_of_arrival self.old.world self.new.world result turn }
        ensures err { OnErr result (IsTrue (may_wake (slice_get self.old.world.links.inputs (link_index link)))) }
        ensures room { OnErr result (self.old.room ≡ 0) }
        ensures holder { self.new.holder ≡ self.old.holder }
        ensures holding { self.new.holding ≡ self.old.holding }
    {
        let input = self.input(link);
        if let Some(process) = input.waiting {
            self.reserve()?;
            self.fill(process, link, byte, input);
            self.dispatch(0);
            return Ok(Arrival::Taken);
        }
        if input.kept.is_some() {
            return Ok(Arrival::Busy);
        }
        if input.enabled.is_some() {
            self.reserve()?;
        }
        self.set_input(
            link,
            InputLink {
                kept: Some(byte),
                ..input
            },
        );
        self.rouse(input.enabled);
        self.dispatch(0);
        Ok(Arrival::Kept)
    }

    /// The message that was emitted on a link is acknowledged. Returns whether its sender goes on: it may be that none
    /// waits. Memory can only run out if its sender waits.
    pub fn acknowledge(&mut self, link: Link) -> Result<bool, AllocError>
        ensures turn { let turn = acknowledge_turn (link_index link) self.old.world in
            IsTurn acknowledged_if self.old.world self.new.world result turn }
        ensures err { OnErr result (IsTrue (has_sender (slice_get self.old.world.links.outputs (link_index link)))) }
        ensures room { OnErr result (self.old.room ≡ 0) }
        ensures holder { self.new.holder ≡ self.old.holder }
        ensures holding { self.new.holding ≡ self.old.holding }
    {
        let Some(process) = self.output(link).waiting else {
            return Ok(false);
        };
        self.reserve()?;
        self.set_output(link, OutputLink { waiting: None });
        self.wake(process);
        self.dispatch(0);
        Ok(true)
    }
}
