//! Messages, over a link or an internal channel, by the address that names it.

ghost use Rattle.std.specs.Prelude.{◌≡◌, ◌+◌, ◌<◌, ◌^◌, IfOk, IsOk, IsTrue, length};
ghost use Rattle.std.specs.Option.{option_map};
ghost use Rattle.module_format.specs.Contents.{contents_of};
ghost use Rattle.machine_state.specs.Moves.{link_index};
ghost use Rattle.machine_state.specs.Turn.{ran};
ghost use Rattle.machine_state.specs.Exchanges.{link_from, input_link, output_link, received, sent};
ghost use Rattle.traffic.specs.Settling.{IsAsked, turn_for, SettlesIfRoom, OnMemory};
ghost use Rattle.traffic.specs.Delivering.{effect_of_delivery, goes_on, receiver_goes_on, sender_goes_on};
ghost use Rattle.traffic.specs.Delivering.{receiving_may_wake, sending_may_wake};

use crate::message::Message;
use crate::stop::Stop;
use crate::traffic::Traffic;
use machine_state::{LINK_WORDS, Link, Store};
use module_format::Tables;
use process_queue::ListQueue;

/// The address of the word of input link 0.
const INPUT_WORDS: u32 = LINK_WORDS + 16;

/// What became of a message that was sent.
#[derive(Clone, Copy, Debug, PartialEq, Eq)]
pub enum Delivery {
    /// It goes out on this link, and its sender waits for the acknowledgement.
    Emitted(Link),
    /// It went to a receiver that waited for it, and its sender goes on.
    Received,
    /// Its sender waits for a receiver.
    Awaited,
}

/// The link whose word is at the address, of four whose words begin here.
fn link_from(first: u32, address: u32) -> Option<Link>
    requires { first + 12 < 2 ^ 32 }
    ensures { option_map link_index result ≡ link_from first address }
{
    if address == first {
        Some(Link::Zero)
    } else if address == first + 4 {
        Some(Link::One)
    } else if address == first + 8 {
        Some(Link::Two)
    } else if address == first + 12 {
        Some(Link::Three)
    } else {
        None
    }
}

/// The link whose input word is at the address.
pub fn input_link(address: u32) -> Option<Link>
    ensures { option_map link_index result ≡ input_link address }
{
    link_from(INPUT_WORDS, address)
}

/// The link whose output word is at the address.
fn output_link(address: u32) -> Option<Link>
    ensures { option_map link_index result ≡ output_link address }
{
    link_from(LINK_WORDS, address)
}

impl<S: Store> Traffic<S, ListQueue> {
    /// Receives a message from the link or internal channel at its exchange's address. Returns whether the process
    /// goes on. Only where a process may become ready, and no rule is broken, can memory run out.
    pub fn receive(&mut self, tables: &Tables, message: &Message) -> Result<bool, Stop>
        requires code { length tables.now.code.now < 2 ^ 32 }
        requires message { IsAsked self.old.holding message.now }
        ensures settles { let turn = turn_for received (contents_of tables.now) message.now self.old.world in
            SettlesIfRoom (λ goes_on. ran) self.old.world self.new.world result turn }
        ensures goes_on { IfOk result (λ goes_on. goes_on ≡ receiver_goes_on message.now.exchange self.old.world) }
        ensures faultless { let turn = turn_for received (contents_of tables.now) message.now self.old.world in
            OnMemory result (IsOk turn.answer) }
        ensures wakes { OnMemory result (IsTrue (receiving_may_wake message.now.exchange self.old.world)) }
        ensures room { OnMemory result (self.old.room ≡ 0) }
        ensures holder { self.new.holder ≡ self.old.holder }
        ensures holding { self.new.holding ≡ self.old.holding }
    {
        match input_link(message.exchange.channel) {
            Some(link) => Ok(self.receive_on(tables, message, link)?),
            None => self.receive_inside(tables, message),
        }
    }

    /// Sends a message on the link or internal channel at its exchange's address. Only where a process may become
    /// ready, and no rule is broken, can memory run out.
    pub fn send(&mut self, tables: &Tables, message: &Message) -> Result<Delivery, Stop>
        requires code { length tables.now.code.now < 2 ^ 32 }
        requires message { IsAsked self.old.holding message.now }
        ensures settles { let turn = turn_for sent (contents_of tables.now) message.now self.old.world in
            SettlesIfRoom (effect_of_delivery message.now.exchange self.new.world) self.old.world self.new.world
            result turn }
        ensures goes_on { IfOk result (λ delivery.
            goes_on delivery ≡ sender_goes_on message.now.exchange self.old.world) }
        ensures faultless { let turn = turn_for sent (contents_of tables.now) message.now self.old.world in
            OnMemory result (IsOk turn.answer) }
        ensures wakes { OnMemory result (IsTrue (sending_may_wake message.now.exchange self.old.world)) }
        ensures room { OnMemory result (self.old.room ≡ 0) }
        ensures holder { self.new.holder ≡ self.old.holder }
        ensures holding { self.new.holding ≡ self.old.holding }
    {
        if let Some(link) = output_link(message.exchange.channel) {
            self.send_on(tables, message, link)?;
            return Ok(Delivery::Emitted(link));
        }
        if self.send_inside(tables, message)? {
            Ok(Delivery::Received)
        } else {
            Ok(Delivery::Awaited)
        }
    }
}
