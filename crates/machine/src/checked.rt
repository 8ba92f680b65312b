//! The reference machine: it runs any module, and reports the first rule that a process breaks.

mod act;
mod granting;
mod links;
mod machine;
mod step;

ghost use Rattle.std.specs.Prelude.{◌≡◌, IfOk, IsTrue, MatchOption, Some, None, slice_get, length};
ghost use Rattle.machine_state.specs.Exchanges.{bytes_at};
ghost use Rattle.machine_state.specs.LocalStep.{are_defined};
ghost use Rattle.machine_state.specs.Memory.{place_of};
ghost use Rattle.machine_state.specs.Moves.{link_index, channel_at};
ghost use Rattle.machine_state.specs.Views.{role_view};
ghost use Rattle.machine_state.specs.World.{loaded};
ghost use Rattle.machine_state.specs.Happens.{turn};
ghost use Rattle.traffic.specs.Settling.{OnMemory};
ghost use Rattle.machine.specs.Allocating.{may_allocate};
ghost use Rattle.machine.specs.Applying.{Applies, IsDefined, effect_of_act};
ghost use Rattle.link_runs.specs.Driving.{shown};
ghost use Rattle.link_runs.specs.Wanting.{is_running, wants};

pub(crate) use act::Act;
use certificate::Module;
use machine::Machine;
use machine_state::{
    Channel, Effect, Event, Exchange, Fault, InputLink, Link, OutputLink, Role, Task,
};
use std::alloc::{AllocError, Global};
use std::marker::Model;
pub(crate) use step::MOST_EXECUTED;
pub use traffic::Stop;

/// A machine that runs a module, however faulty, and checks each rule at each instruction.
#[derive(Drop)]
pub struct Checked<'a> {
    module: &'a Module<'a>,
    machine: Machine,
}

impl<'a> Model for Checked<'a> {
    ghost use Rattle.machine.specs.Asking.{Execution};

    ghost Value = { Execution };

    ghost view = { λ c. record { contents = c.module.now; world = c.machine.world } };
}

impl<'a> Checked<'a> {
    ghost use Rattle.std.specs.Borrow.{sem};
    ghost use Rattle.machine.specs.Lending.{Tells, Rested};

    /// The machine of a module that is loaded: its root is about to run the first byte of the code.
    pub fn load(alloc: Global, module: &'a Module<'a>) -> Result<Checked<'a>, AllocError>
        ensures { let m = «module».now in
            IfOk result (λ c. c ≡ record { contents = m; world = loaded m }) }
    {
        let machine = Machine::load(alloc, module.tables())?;
        Ok(Checked { module, machine })
    }

    /// One event, with what it did still in the machine.
    #[tactic(auto, unfolding(machine_state::specs::Happens::turn))]
    pub(crate) fn advance(&mut self, event: Event) -> Result<Act, Stop>
        ensures applies { let expected = turn self.old.contents self.old.world event in
            Applies self.old.world self.new.world result expected }
        ensures defined { IfOk result (λ act. IsDefined act self.new.world.memory) }
        ensures memory { OnMemory result (IsTrue (may_allocate self.old.contents self.old.world event)) }
        ensures contents { self.new.contents ≡ self.old.contents }
    {
        if let Some(fault) = self.machine.fault() {
            return Err(Stop::Fault(fault));
        }
        match event {
            Event::Step { slice, pick } => self.machine.step(self.module, slice, pick),
            Event::Arrive { link, byte } => self.machine.arrive(link, byte),
            Event::Acknowledge { link } => self.machine.acknowledge(link),
        }
    }

    /// One event of the machine. At `Ok` it happened, and the effect is what it did. At `Stop::Fault` the
    /// machine is at fault, by this event or since an earlier one, and stays so. At `Stop::Memory` nothing
    /// changed.
    ///
    /// Memory runs out only where a process that waits may become ready, where a process may give way, and where a
    /// branch starts.
    pub fn apply(&mut self, event: Event) -> Result<Effect<'_>, Stop>
        ensures answer { Tells result (turn self.old.contents self.old.world event) }
        ensures memory { OnMemory result (IsTrue (may_allocate self.old.contents self.old.world event)) }
        ensures* rests { sem 𝓛 (Rested self.entry event result) }
    {
        let act = self.advance(event)?;
        Ok(self.effect(act))
    }

    /// What the last event did, as it is reported.
    fn effect(&self, act: Act) -> Effect<'_>
        requires { IsDefined act self.now.world.memory }
        ensures { shown result ≡ effect_of_act self.now.world.memory act }
    {
        match act {
            Act::Emitted { link, exchange } => Effect::Emitted {
                link,
                bytes: self.bytes(exchange),
            },
            Act::Ran => Effect::Ran,
            Act::Idle => Effect::Idle,
            Act::Taken => Effect::Taken,
            Act::Kept => Effect::Kept,
            Act::Busy => Effect::Busy,
            Act::Acknowledged => Effect::Acknowledged,
            Act::Ignored => Effect::Ignored,
        }
    }

    /// The bytes of a message, which are defined.
    pub(crate) fn bytes(&self, exchange: Exchange) -> &[u8]
        requires { IsTrue (are_defined self.now.world.memory exchange.address exchange.length) }
        ensures { result.now ≡ bytes_at self.now.world.memory (place_of exchange.address) exchange.length }
    {
        self.machine.traffic.bytes(exchange)
    }

    /// How many bytes were executed.
    pub fn executed(&self) -> u64
        ensures { result ≡ self.now.world.counters.executed }
    {
        self.machine.executed()
    }

    /// Whether the module is finished: some process has stopped where the module says that it ends.
    pub fn finished(&self) -> bool
        ensures { result ≡ self.now.world.counters.is_finished }
    {
        self.machine.is_finished()
    }

    /// Whether some process runs.
    pub fn running(&self) -> bool
        ensures { result ≡ is_running self.now.world }
    {
        self.machine.traffic.running().is_some()
    }

    /// The process that runs.
    pub fn runner(&self) -> Option<u64>
        ensures { result ≡ self.now.world.queue.running }
    {
        self.machine.traffic.running()
    }

    /// The module that runs.
    pub fn module(&self) -> &Module<'a>
        ensures { result.now ≡ self.now.contents }
    {
        self.module
    }

    /// The fault that the machine is at.
    pub fn fault(&self) -> Option<Fault>
        ensures { result ≡ self.now.world.fault }
    {
        self.machine.fault()
    }

    /// How many processes there are, those that have ended among them.
    pub fn count(&self) -> u64
        ensures { result ≡ length self.now.world.tasks }
    {
        self.machine.traffic.count()
    }

    /// The process of this number, if there is one.
    pub fn task(&self, process: u64) -> Option<Task>
        ensures { result ≡ slice_get self.now.world.tasks process }
    {
        self.machine.traffic.task(process)
    }

    /// What the process of this number has for good, and its part in the open joins, if there is one.
    pub fn role(&self, process: u64) -> Option<&Role>
        ensures { let found = slice_get self.now.world.roles process in
            MatchOption result (found ≡ None) (λ role. found ≡ Some (role_view role.now)) }
    {
        self.machine.traffic.store().role(process)
    }

    /// The input side of the link.
    pub fn input(&self, link: Link) -> InputLink
        ensures { slice_get self.now.world.links.inputs (link_index link) ≡ Some result }
    {
        self.machine.traffic.input(link)
    }

    /// The output side of the link.
    pub fn output(&self, link: Link) -> OutputLink
        ensures { slice_get self.now.world.links.outputs (link_index link) ≡ Some result }
    {
        self.machine.traffic.output(link)
    }

    /// The channel at the address, if there is one.
    pub fn channel(&self, address: u32) -> Option<Channel>
        ensures { result ≡ channel_at self.now.world address }
    {
        self.machine.traffic.channel(address)
    }

    /// Whether some process waits for a byte on the link or has enabled it, and none is kept there.
    pub fn wants(&self, link: Link) -> bool
        ensures { result ≡ wants link self.now.world }
    {
        let input = self.machine.traffic.input(link);
        input.kept.is_none() && (input.waiting.is_some() || input.enabled.is_some())
    }
}
