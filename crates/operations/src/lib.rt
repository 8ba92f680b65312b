//! The operations of the T414: what a process does alone, and what it asks of others.
#![tactic(auto, using(machine_state::proofs::Scheduling::schedules_is), unfolding(machine_state::specs::LocalStep::operation_step, machine_state::specs::LocalStep::holds, machine_state::specs::LocalStep::uses, machine_state::specs::LocalStep::computes, machine_state::specs::LocalStep::counts, machine_state::specs::LocalStep::aligned, machine_state::specs::LocalStep::reads, machine_state::specs::LocalStep::reads_byte, machine_state::specs::LocalStep::writes_byte, machine_state::specs::LocalStep::leads_to, machine_state::specs::LocalStep::lands_at, machine_state::specs::LocalStep::goes_on))]

mod alternating;
mod arithmetic;
mod bytes;
mod long;
mod loops;
mod messages;
mod moving;
mod operands;
mod registers;
mod returning;
mod starting;
mod stopping;
mod subscripts;

ghost use Rattle.machine_state.specs.Performing.{PerformsOperation};

use machine_state::{Cpu, FaultKind, Flow, Op, Store};

/// Executes one operation of the running process. The registers `at`, `began` and `operand` stay as they are:
/// the caller says where the next instruction begins. After a fault nothing has changed, and what is asked of others
/// has changed the registers alone.
#[tactic(auto)]
pub fn operate<S: Store>(cpu: &mut Cpu<S>, op: Op) -> Result<Flow, FaultKind>
    ensures { PerformsOperation S.LoadStore op cpu.old cpu.new result }
{
    match op {
        Op::Reverse => registers::reverse(cpu),
        Op::MinimumInteger => registers::minimum_integer(cpu),
        Op::StopProcess => stopping::stop_process(cpu),
        Op::Binary(op) => arithmetic::binary(cpu, op),
        Op::Unary(op) => arithmetic::unary(cpu, op),
        Op::Shift(op) => long::shift(cpu, op),
        Op::Long(op) => long::long(cpu, op),
        Op::LoadByte => bytes::load_byte(cpu),
        Op::StoreByte => bytes::store_byte(cpu),
        Op::ByteSubscript => subscripts::byte_subscript(cpu),
        Op::WordSubscript => subscripts::word_subscript(cpu),
        Op::CheckSubscript => subscripts::check_subscript(cpu),
        Op::CheckCount => subscripts::check_count(cpu),
        Op::LoadPointerToInstruction => subscripts::load_pointer_to_instruction(cpu),
        Op::Move => moving::move_bytes(cpu),
        Op::Return => returning::return_from_call(cpu),
        Op::LoopEnd => loops::loop_end(cpu),
        Op::Input => messages::input(cpu),
        Op::Output => messages::output(cpu),
        Op::Alternate => alternating::alternate(cpu),
        Op::EnableChannel => alternating::enable_channel(cpu),
        Op::EnableSkip => alternating::enable_skip(cpu),
        Op::AlternationWait => alternating::alternation_wait(cpu),
        Op::DisableChannel => alternating::disable_channel(cpu),
        Op::DisableSkip => alternating::disable_skip(cpu),
        Op::AlternationEnd => alternating::alternation_end(cpu),
        Op::StartProcess => starting::start_process(cpu),
        Op::EndProcess => starting::end_process(cpu),
    }
}
