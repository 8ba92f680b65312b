//! Messages over internal channels: the first process to come waits for the second.

ghost use Rattle.std.specs.Prelude.{◌≡◌, ◌+◌, ◌<◌, ◌^◌, IfOk, IsTrue, IsOk, Some, None, length};
ghost use Rattle.module_format.specs.Contents.{contents_of};
ghost use Rattle.machine_state.specs.Exchanges.{condition_of};
ghost use Rattle.machine_state.specs.LocalStep.{copied};
ghost use Rattle.machine_state.specs.Memory.{place_of};
ghost use Rattle.machine_state.specs.Moves.{wake, with_channel, channel_at};
ghost use Rattle.machine_state.specs.Turn.{ran};
ghost use Rattle.traffic.specs.Moment.{IsSteady, WaitsForMore};
ghost use Rattle.traffic.specs.Settling.{IsAsked, turn_for, put_after, is_awaited, is_wanted};
ghost use Rattle.traffic.specs.Settling.{received_by_channel, sent_by_channel, SettlesIfRoom, OnMemory};

use crate::message::Message;
use crate::stop::Stop;
use crate::traffic::Traffic;
use machine_state::{Channel, Condition, Exchange, FaultKind, Store};
use module_format::Tables;
use process_queue::ListQueue;

impl<S: Store> Traffic<S, ListQueue> {
    /// What the process of this number, if there is one, waits for.
    fn condition(&self, process: u64) -> Condition
        ensures value { result ≡ condition_of self.now.world process }
    {
        match self.task(process) {
            Some(task) => task.condition,
            None => Condition::Ready,
        }
    }

    /// The process waits on the message's channel in this condition.
    fn wait_at(&mut self, message: &Message, channel: Channel, condition: Condition)
        requires next { message.now.here.task.registers.at + 1 < 2 ^ 32 }
        requires condition { WaitsForMore condition }
        ensures { let waits = record channel { waiting = Some message.now.here.process } in
            self.new ≡ record self.old {
              world = with_channel message.now.exchange.channel waits (put_after message.now condition self.old.world);
            } }
    {
        self.put_after(message, condition);
        self.set_channel(
            message.exchange.channel,
            Channel {
                waiting: Some(message.here.process),
                ..channel
            },
        );
    }
}

impl<S: Store> Traffic<S, ListQueue> {
    /// The sender's bytes go to the receiver. The other process, which came first, becomes ready, and this one goes on.
    fn meet(
        &mut self,
        message: &Message,
        other: u64,
        source: Exchange,
        to: Exchange,
        channel: Channel,
    )
        requires room { 0 < self.old.room }
        requires next { message.now.here.task.registers.at + 1 < 2 ^ 32 }
        requires task { IsSteady message.now.here.task }
        ensures world { let w = self.old.world in
            let memory = copied w.memory (place_of source.address) (place_of to.address) source.length w.memory in
            let there = put_after message.now message.now.here.task.condition (record w { memory = memory }) in
            self.new.world ≡ wake other (with_channel source.channel (record channel { waiting = None }) there) }
        ensures holder { self.new.holder ≡ self.old.holder }
        ensures holding { self.new.holding ≡ self.old.holding }
    {
        self.copy(source.address, to.address, source.length);
        self.put_after(message, message.here.task.condition);
        self.set_channel(
            source.channel,
            Channel {
                waiting: None,
                ..channel
            },
        );
        self.wake(other);
    }

    /// Receives a message from an internal channel. Returns whether the process goes on: it does if the sender waits
    /// there already. Only then can memory run out.
    #[tactic(auto, unfolding(machine_state::specs::Moves::dispatch))]
    pub(crate) fn receive_inside(
        &mut self,
        tables: &Tables,
        message: &Message,
    ) -> Result<bool, Stop>
        requires code { length tables.now.code.now < 2 ^ 32 }
        requires message { IsAsked self.old.holding message.now }
        ensures settles { let turn = turn_for received_by_channel (contents_of tables.now) message.now self.old.world in
            SettlesIfRoom (λ goes_on. ran) self.old.world self.new.world result turn }
        ensures goes_on { IfOk result (λ goes_on.
            goes_on ≡ is_awaited (channel_at self.old.world message.now.exchange.channel)) }
        ensures faultless { let turn = turn_for received_by_channel
            (contents_of tables.now) message.now self.old.world in
            OnMemory result (IsOk turn.answer) }
        ensures waits { let channel = channel_at self.old.world message.now.exchange.channel in
            OnMemory result (IsTrue (is_awaited channel)) }
        ensures room { OnMemory result (self.old.room ≡ 0) }
        ensures holder { self.new.holder ≡ self.old.holder }
        ensures holding { self.new.holding ≡ self.old.holding }
    {
        let here = &message.here;
        let exchange = message.exchange;
        let Some(channel) = self.channel(exchange.channel) else {
            return Err(Stop::Fault(here.fault(FaultKind::EndNotHeld)));
        };
        let Some(other) = channel.waiting else {
            if !here.is_followed(tables) {
                return Err(Stop::Fault(here.fault(FaultKind::OutsideCode)));
            }
            self.clear_scheduling_words(message.registers);
            self.wait_at(message, channel, Condition::Receiving(exchange));
            self.give_way(here);
            return Ok(false);
        };
        let Condition::Sending(sent) = self.condition(other) else {
            return Err(Stop::Fault(here.fault(FaultKind::EndNotHeld)));
        };
        if sent.length != exchange.length {
            return Err(Stop::Fault(here.fault(FaultKind::UnequalLengths)));
        }
        if !here.is_followed(tables) {
            return Err(Stop::Fault(here.fault(FaultKind::OutsideCode)));
        }
        self.reserve()?;
        self.clear_scheduling_words(message.registers);
        self.meet(message, other, sent, exchange, channel);
        Ok(true)
    }

    /// Sends a message on an internal channel. Returns whether the process goes on: it does if the receiver waits there
    /// already. If not, what has enabled the channel becomes ready. Only in these two cases can memory run out.
    #[tactic(auto, unfolding(machine_state::specs::Moves::dispatch))]
    pub(crate) fn send_inside(&mut self, tables: &Tables, message: &Message) -> Result<bool, Stop>
        requires code { length tables.now.code.now < 2 ^ 32 }
        requires message { IsAsked self.old.holding message.now }
        ensures settles { let turn = turn_for sent_by_channel (contents_of tables.now) message.now self.old.world in
            SettlesIfRoom (λ goes_on. ran) self.old.world self.new.world result turn }
        ensures goes_on { IfOk result (λ goes_on.
            goes_on ≡ is_awaited (channel_at self.old.world message.now.exchange.channel)) }
        ensures faultless { let turn = turn_for sent_by_channel (contents_of tables.now) message.now self.old.world in
            OnMemory result (IsOk turn.answer) }
        ensures wanted { let channel = channel_at self.old.world message.now.exchange.channel in
            OnMemory result (IsTrue (is_wanted channel)) }
        ensures room { OnMemory result (self.old.room ≡ 0) }
        ensures holder { self.new.holder ≡ self.old.holder }
        ensures holding { self.new.holding ≡ self.old.holding }
    {
        let here = &message.here;
        let exchange = message.exchange;
        let Some(channel) = self.channel(exchange.channel) else {
            return Err(Stop::Fault(here.fault(FaultKind::EndNotHeld)));
        };
        let Some(other) = channel.waiting else {
            if !here.is_followed(tables) {
                return Err(Stop::Fault(here.fault(FaultKind::OutsideCode)));
            }
            if channel.enabled.is_some() {
                self.reserve()?;
            }
            self.clear_scheduling_words(message.registers);
            self.wait_at(message, channel, Condition::Sending(exchange));
            self.rouse(channel.enabled);
            self.give_way(here);
            return Ok(false);
        };
        let Condition::Receiving(wanted) = self.condition(other) else {
            return Err(Stop::Fault(here.fault(FaultKind::EndNotHeld)));
        };
        if wanted.length != exchange.length {
            return Err(Stop::Fault(here.fault(FaultKind::UnequalLengths)));
        }
        if !here.is_followed(tables) {
            return Err(Stop::Fault(here.fault(FaultKind::OutsideCode)));
        }
        self.reserve()?;
        self.clear_scheduling_words(message.registers);
        self.meet(message, other, exchange, wanted, channel);
        Ok(true)
    }
}
