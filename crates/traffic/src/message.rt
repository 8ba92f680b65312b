//! A message that an instruction sends or receives.

ghost use Rattle.std.specs.Prelude.{◌≡◌, ◌+◌, ◌<◌, ◌^◌, IsTrue};
ghost use Rattle.machine_state.specs.Exchanges.{bytes_at};
ghost use Rattle.machine_state.specs.LocalStep.{are_defined};
ghost use Rattle.machine_state.specs.Memory.{place_of};
ghost use Rattle.traffic.specs.Moment.{WaitsForMore};
ghost use Rattle.traffic.specs.Settling.{put_after};

use crate::here::Here;
use crate::traffic::Traffic;
use machine_state::{Condition, Exchange, Registers, Store};
use process_queue::ListQueue;

/// A message that an instruction sends or receives.
#[derive(Clone, Copy)]
pub struct Message {
    /// The process, at the last byte of the instruction.
    pub here: Here,
    pub exchange: Exchange,
    /// The registers with which the process goes on after it.
    pub registers: Registers,
}

impl<S: Store> Traffic<S, ListQueue> {
    /// The process is after the instruction, in this condition.
    pub(crate) fn put_after(&mut self, message: &Message, condition: Condition)
        requires next { message.now.here.task.registers.at + 1 < 2 ^ 32 }
        requires condition { WaitsForMore condition }
        ensures { self.new ≡ record self.old { world = put_after message.now condition self.old.world } }
    {
        let here = &message.here;
        self.put_at(here, here.next(), message.registers, condition);
    }

    /// The bytes of a message, all of which are defined.
    pub fn bytes(&self, exchange: Exchange) -> &[u8]
        requires { IsTrue (are_defined self.now.world.memory exchange.address exchange.length) }
        ensures { result.now ≡ bytes_at self.now.world.memory (place_of exchange.address) exchange.length }
    {
        self.cpu.store.lend(exchange.address, exchange.length)
    }
}
