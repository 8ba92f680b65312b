//! The messages that a process asks for.

ghost use Rattle.std.specs.Prelude.{◌≡◌, ◌≤◌, IfOk, OnOk, IsTrue};
ghost use Rattle.machine_state.specs.declared.op.Op.TheVariants as operation;
ghost use Rattle.machine_state.specs.LocalStep.{holds_scheduling_words};
ghost use Rattle.machine_state.specs.Performing.{AsksFor, PerformsOperation};
ghost use Rattle.operations.specs.Exchanging.{may_use_bytes, AsksForMessage};

use machine_state::{Cpu, Exchange, FaultKind, Flow, Request, Store};
use module_format::{Direction, MAX_MESSAGE, Stack};

/// The message of A bytes at C over channel B, of which the process holds this end.
#[tactic(auto, unfolding(machine_state::specs::LocalStep::exchanges, machine_state::specs::LocalStep::uses, machine_state::specs::LocalStep::counts))]
fn exchange<S: Store>(cpu: &Cpu<S>, direction: Direction) -> Result<Exchange, FaultKind>
    ensures asks { AsksFor S.LoadStore cpu.now direction result }
    ensures length { IfOk result (λ e. 1 ≤ e.length) }
{
    let length = cpu.used(cpu.registers.stack.a)?;
    let channel = cpu.used(cpu.registers.stack.b)?;
    let address = cpu.used(cpu.registers.stack.c)?.cast_unsigned();
    let length = cpu.count(1, MAX_MESSAGE, length)?;
    let channel = cpu.channel(channel, direction)?;
    Ok(Exchange {
        channel,
        address,
        length,
    })
}

/// Whether the process may use the bytes of a message that goes this way: they are its own to write where it receives,
/// and to read where it sends.
fn may_use<S: Store>(cpu: &Cpu<S>, direction: Direction, exchange: Exchange) -> bool
    ensures { result ≡ may_use_bytes (S.holding cpu.now.store) direction exchange.address exchange.length }
{
    match direction {
        Direction::In => cpu.store.can_store_bytes(exchange.address, exchange.length),
        Direction::Out => cpu.store.can_load_bytes(exchange.address, exchange.length),
    }
}

/// The message that goes this way, for which the process asks alone. It may use the bytes, which are apart from the
/// words that scheduling takes.
#[tactic(auto, using(machine_state::proofs::Scheduling::schedules_is, crate::proofs::Exchanging::message_step), unfolding(machine_state::specs::LocalStep::holds))]
fn message<S: Store>(cpu: &Cpu<S>, direction: Direction) -> Result<Exchange, FaultKind>
    ensures asks { AsksForMessage S.LoadStore cpu.now direction result }
    ensures length { IfOk result (λ e. 1 ≤ e.length) }
    ensures words { let workspace = cpu.now.registers.workspace in
        OnOk result (IsTrue (holds_scheduling_words (S.holding cpu.now.store) workspace)) }
{
    cpu.alone()?;
    let exchange = exchange(cpu, direction)?;
    cpu.schedulable()?;
    let is_own = may_use(cpu, direction, exchange);
    let is_apart = cpu.is_apart_from_scheduling(exchange.address, exchange.length);
    cpu.check(is_own && is_apart, FaultKind::NotOwn)?;
    Ok(exchange)
}

/// `in`: a message of A bytes from channel B is to go to C.
pub(crate) fn input<S: Store>(cpu: &mut Cpu<S>) -> Result<Flow, FaultKind>
    ensures { PerformsOperation S.LoadStore operation.Input cpu.old cpu.new result }
{
    let exchange = message(cpu, Direction::In)?;
    cpu.registers.stack = Stack::of_empty(None);
    Ok(Flow::Ask(Request::Receive(exchange)))
}

/// `out`: a message of A bytes at C is to go to channel B.
pub(crate) fn output<S: Store>(cpu: &mut Cpu<S>) -> Result<Flow, FaultKind>
    ensures { PerformsOperation S.LoadStore operation.Output cpu.old cpu.new result }
{
    let exchange = message(cpu, Direction::Out)?;
    let is_defined = cpu.stays_defined(exchange.address, exchange.length);
    cpu.check(is_defined, FaultKind::Undefined)?;
    cpu.registers.stack = Stack::of_empty(None);
    Ok(Flow::Ask(Request::Send(exchange)))
}
