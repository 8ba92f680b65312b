//! Messages over links.

ghost use Rattle.std.specs.Prelude.{◌≡◌, ◌+◌, ◌<◌, ◌^◌, IfOk, Some, length, slice_get};
ghost use Rattle.module_format.specs.Contents.{contents_of};
ghost use Rattle.machine_state.specs.Memory.{place_of};
ghost use Rattle.machine_state.specs.Moves.{link_index, with_input, leave, dispatch};
ghost use Rattle.machine_state.specs.Turn.{ran, emitted};
ghost use Rattle.machine_state.specs.Exchanges.{received_outside, sent_outside, bytes_at};
ghost use Rattle.traffic.specs.Settling.{IsAsked, turn_for, put_after, is_complete, Settles};

use crate::message::Message;
use crate::traffic::Traffic;
use machine_state::{Condition, Fault, FaultKind, InputLink, Link, OutputLink, Store};
use module_format::Tables;
use process_queue::ListQueue;

impl<S: Store> Traffic<S, ListQueue> {
    /// The process waits on the input link for the bytes after the first `done`, and another may run.
    fn wait_on(&mut self, message: &Message, link: Link, input: InputLink, done: u32)
        requires next { message.now.here.task.registers.at + 1 < 2 ^ 32 }
        requires more { done < message.now.exchange.length }
        ensures world { let condition = Condition.OnLink message.now.exchange done in
            let waits = record input { waiting = Some message.now.here.process } in
            self.new.world ≡ dispatch message.now.here.pick
            (leave (with_input (link_index link) waits (put_after message.now condition self.old.world))) }
        ensures holder { self.new.holder ≡ self.old.holder }
        ensures holding { self.new.holding ≡ self.old.holding }
    {
        let exchange = message.exchange;
        self.put_after(message, Condition::OnLink { exchange, done });
        self.set_input(
            link,
            InputLink {
                waiting: Some(message.here.process),
                ..input
            },
        );
        self.give_way(&message.here);
    }

    /// Sends a message on a link: it goes out at once, and its sender waits until it is acknowledged.
    #[tactic(auto, using(crate::proofs::LinkNumbers::link_of_index), unfolding(machine_state::specs::Moves::dispatch))]
    pub(crate) fn send_on(
        &mut self,
        tables: &Tables,
        message: &Message,
        link: Link,
    ) -> Result<(), Fault>
        requires code { length tables.now.code.now < 2 ^ 32 }
        requires message { IsAsked self.old.holding message.now }
        ensures settles { let e = message.now.exchange in
            let bytes = bytes_at self.new.world.memory (place_of e.address) e.length in
            let turn = turn_for (λ h. sent_outside h (link_index link)) (contents_of tables.now) message.now
            self.old.world in
            Settles self.old.world self.new.world (emitted link bytes) result turn }
        ensures holder { self.new.holder ≡ self.old.holder }
        ensures holding { self.new.holding ≡ self.old.holding }
    {
        let here = &message.here;
        let exchange = message.exchange;
        if tables.lengths[link.index()] != exchange.length {
            return Err(here.fault(FaultKind::UnequalLengths));
        }
        if !here.is_followed(tables) {
            return Err(here.fault(FaultKind::OutsideCode));
        }
        self.clear_scheduling_words(message.registers);
        self.put_after(message, Condition::OnLink { exchange, done: 0 });
        self.set_output(
            link,
            OutputLink {
                waiting: Some(here.process),
            },
        );
        self.give_way(here);
        Ok(())
    }

    /// Receives a message from a link. Returns whether the process goes on: a byte that is kept there is the message's
    /// first, and if it is the last too, nothing is waited for.
    #[tactic(auto, unfolding(machine_state::specs::Moves::dispatch))]
    pub(crate) fn receive_on(
        &mut self,
        tables: &Tables,
        message: &Message,
        link: Link,
    ) -> Result<bool, Fault>
        requires code { length tables.now.code.now < 2 ^ 32 }
        requires message { IsAsked self.old.holding message.now }
        ensures settles { let turn = turn_for (λ h. received_outside h (link_index link)) (contents_of tables.now)
            message.now self.old.world in
            Settles self.old.world self.new.world ran result turn }
        ensures goes_on { let input = slice_get self.old.world.links.inputs (link_index link) in
            IfOk result (λ goes_on. goes_on ≡ is_complete input message.now.exchange) }
        ensures holder { self.new.holder ≡ self.old.holder }
        ensures holding { self.new.holding ≡ self.old.holding }
    {
        let here = &message.here;
        let exchange = message.exchange;
        let input = self.input(link);
        if tables.lengths[4 + link.index()] != exchange.length {
            return Err(here.fault(FaultKind::UnequalLengths));
        }
        if !here.is_followed(tables) {
            return Err(here.fault(FaultKind::OutsideCode));
        }
        self.clear_scheduling_words(message.registers);
        let Some(byte) = input.kept else {
            self.wait_on(message, link, input, 0);
            return Ok(false);
        };
        self.put_byte(exchange.address, byte);
        let input = InputLink {
            kept: None,
            ..input
        };
        if exchange.length == 1 {
            self.put_after(message, here.task.condition);
            self.set_input(link, input);
            return Ok(true);
        }
        self.wait_on(message, link, input, 1);
        Ok(false)
    }
}
