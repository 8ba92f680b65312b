//! What processes ask of others, granted.

ghost use Rattle.std.specs.Prelude.{◌≡◌, ◌+◌, ◌<◌, ◌^◌, IsTrue, false, length};
ghost use Rattle.module_format.specs.Contents.{contents_of};
ghost use Rattle.machine_state.specs.Asking.{asked, local_for, untouched};
ghost use Rattle.machine_state.specs.Exchanges.{received, sent};
ghost use Rattle.machine_state.specs.Joins.{start_turn};
ghost use Rattle.machine_state.specs.LocalStep.{are_defined, without_scheduling_words};
ghost use Rattle.machine_state.specs.Happens.{settled, most_executed};
ghost use Rattle.traffic.specs.Moment.{IsSteady};
ghost use Rattle.traffic.specs.Delivering.{receiving_may_wake, sending_may_wake};
ghost use Rattle.traffic.specs.Settling.{here_in, turn_for, IsAsked, OnMemory};
ghost use Rattle.machine.specs.Allocating.{outcome_may_allocate};
ghost use Rattle.machine.specs.Applying.{Applies, Grants, IsPosed, ran_by, world_by};

use super::act::Act;
use super::machine::{Machine, Processes};
use alternation::{
    begin, disable_channel, disable_skip, disabling_reads_no_counters, enable_channel, enable_skip,
    enabling_reads_no_counters, end, wait,
};
use certificate::Module;
use joins::{join, joins_read_no_counters, starts_read_no_counters};
use machine_state::{Exchange, Fault, Registers, Request};
use module_format::Tables;
use std::alloc::Global;
use traffic::{Delivery, Here, Message, Stop, messages_read_no_counters};

/// What an instruction did that was granted, or is at fault.
fn ran(granted: Result<(), Fault>) -> Result<Act, Stop>
    ensures { result ≡ ran_by granted }
{
    granted?;
    Ok(Act::Ran)
}

/// The message that a process asks for at this instruction, after which it goes on with these registers.
fn message(here: &Here, exchange: Exchange, registers: Registers) -> Message
    ensures { result ≡ record { here = here.now; exchange = exchange; registers = registers } }
{
    Message {
        here: *here,
        exchange,
        registers,
    }
}

/// A message is received.
fn receive(processes: &mut Processes, tables: &Tables, message: &Message) -> Result<Act, Stop>
    requires code { length tables.now.code.now < 2 ^ 32 }
    requires message { IsAsked processes.old.holding message.now }
    ensures grants { let turn = turn_for received (contents_of tables.now) message.now processes.old.world in
        Grants processes.old.world processes.new.world result turn }
    ensures memory { OnMemory result (IsTrue (receiving_may_wake message.now.exchange processes.old.world)) }
{
    processes.receive(tables, message)?;
    Ok(Act::Ran)
}

/// A message, whose bytes are defined, is sent.
fn send(processes: &mut Processes, tables: &Tables, message: &Message) -> Result<Act, Stop>
    requires code { length tables.now.code.now < 2 ^ 32 }
    requires message { IsAsked processes.old.holding message.now }
    requires defined { let m = without_scheduling_words processes.old.world.memory message.now.registers.workspace in
        IsTrue (are_defined m message.now.exchange.address message.now.exchange.length) }
    ensures grants { let turn = turn_for sent (contents_of tables.now) message.now processes.old.world in
        Grants processes.old.world processes.new.world result turn }
    ensures memory { OnMemory result (IsTrue (sending_may_wake message.now.exchange processes.old.world)) }
{
    match processes.send(tables, message)? {
        Delivery::Emitted(link) => Ok(Act::Emitted {
            link,
            exchange: message.exchange,
        }),
        Delivery::Received | Delivery::Awaited => Ok(Act::Ran),
    }
}

/// A branch is started.
fn start(
    alloc: Global,
    processes: &mut Processes,
    module: &Module<'_>,
    here: &Here,
    to: u32,
    workspace: u32,
    registers: Registers,
) -> Result<Act, Stop>
    requires task { IsSteady here.now.task }
    ensures { let h = here_in «module».now here.now in
        let l = untouched registers processes.old.world.memory in
        Grants processes.old.world processes.new.world result (start_turn h to workspace l processes.old.world) }
{
    joins::start(alloc, processes, module, here, to, workspace, registers)?;
    Ok(Act::Ran)
}

impl Machine {
    /// An instruction did this: its last byte is counted, or its fault is kept.
    fn keep(&mut self, granted: Result<Act, Stop>) -> Result<Act, Stop>
        requires { self.old.world.counters.executed < most_executed }
        ensures result { result ≡ granted }
        ensures world { self.new.world ≡ world_by granted self.old.world }
    {
        match granted {
            Ok(_) => self.count(),
            Err(Stop::Fault(fault)) => self.fail(fault),
            Err(Stop::Memory) => {}
        }
        granted
    }

    /// What a process asks of others is granted, or is at fault.
    pub(crate) fn grant(
        &mut self,
        module: &Module<'_>,
        here: &Here,
        request: Request,
        registers: Registers,
    ) -> Result<Act, Stop>
        requires executed { self.old.world.counters.executed < most_executed }
        requires next { here.now.task.registers.at + 1 < 2 ^ 32 }
        requires task { IsSteady here.now.task }
        requires posed { IsPosed (here_in «module».now here.now) request registers self.old }
        ensures applies { let h = here_in «module».now here.now in
            let w = self.old.world in
            let outcome = asked request (local_for request registers w.memory) in
            Applies w self.new.world result (settled h false outcome w) }
        ensures memory { let w = self.old.world in
            let outcome = asked request (local_for request registers w.memory) in
            OnMemory result (IsTrue (outcome_may_allocate outcome w)) }
    {
        messages_read_no_counters();
        enabling_reads_no_counters();
        disabling_reads_no_counters();
        starts_read_no_counters();
        joins_read_no_counters();
        let tables = module.tables();
        let alloc = self.alloc;
        let processes = &mut self.traffic;
        let granted = match request {
            Request::Receive(exchange) => {
                receive(processes, tables, &message(here, exchange, registers))
            }
            Request::Send(exchange) => {
                send(processes, tables, &message(here, exchange, registers))
            }
            Request::Begin => {
                begin(processes, here, registers);
                Ok(Act::Ran)
            }
            Request::EnableChannel { guard, address } => {
                ran(enable_channel(processes, tables, here, guard, address, registers))
            }
            Request::EnableSkip { guard } => {
                enable_skip(processes, here, guard, registers);
                Ok(Act::Ran)
            }
            Request::Wait => {
                wait(processes, here, registers);
                Ok(Act::Ran)
            }
            Request::DisableChannel {
                guard,
                address,
                distance,
            } => ran(disable_channel(processes, tables, here, guard, address, distance, registers)),
            Request::DisableSkip { guard, distance } => {
                disable_skip(processes, here, guard, distance, registers);
                Ok(Act::Ran)
            }
            Request::End { to } => ran(end(processes, tables, here, to, registers)),
            Request::Start { to, workspace } => {
                start(alloc, processes, module, here, to, workspace, registers)
            }
            Request::Join { block } => ran(join(processes, tables, here, block, registers)),
        };
        self.keep(granted)
    }
}
