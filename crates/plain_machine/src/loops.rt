//! How a loop turns.
#![tactic(auto, unfolding(crate::specs::PlainStep::plain_step, crate::specs::PlainStep::plain_operation))]

ghost use Rattle.std.specs.Prelude.{◌≡◌};
ghost use Rattle.machine_state.specs.declared.op.Op.TheVariants as operation;
ghost use Rattle.plain_machine.specs.Plain.{defined};
ghost use Rattle.plain_machine.specs.PlainStep.{state_of, plain_operation, Does, IsOperationSafe, HasBlock, with_turn};
ghost use Rattle.plain_machine.specs.PlainStep.{plain_loop_target};

use crate::flow::PlainFlow;
use crate::registers::PlainRegisters;
use crate::words::{load, store};
use machine_state::local_address;

/// The block of a loop counts a turn: the count falls, and while turns are left the index rises.
#[inline(always)]
#[tactic(auto, using(machine_state::proofs::Reading::lengths))]
fn count_turn(bytes: &mut [u8], block: u32, index: i32, count: i32)
    requires { HasBlock (defined bytes.old) block }
    ensures { defined bytes.new ≡ with_turn block index count (defined bytes.old) }
{
    let left = count.cast_unsigned().wrapping_sub(1);
    store(bytes, local_address(block, 1), left.cast_signed());
    if count > 1 {
        let next = index.cast_unsigned().wrapping_add(1);
        store(bytes, block, next.cast_signed());
    }
}

/// Where the process goes on: as many bytes back as A says while turns are left, else after the instruction.
#[inline(always)]
fn loop_target(registers: &PlainRegisters, count: i32) -> u32
    ensures { result ≡ plain_loop_target registers.now count }
{
    if count > 1 {
        let back = registers.stack.a.cast_unsigned().wrapping_neg();
        registers.target(back.cast_signed())
    } else {
        registers.at
    }
}

/// `lend`: the loop of block B, its index and its count, turns at A bytes back, or ends.
#[inline(always)]
pub(crate) fn loop_end(bytes: &mut [u8], registers: &mut PlainRegisters) -> PlainFlow
    requires { IsOperationSafe operation.LoopEnd (state_of registers.old bytes.old) }
    ensures { let step = plain_operation 0 operation.LoopEnd (state_of registers.old bytes.old) in
        Does step result registers.new bytes.new }
{
    let block = registers.stack.b.cast_unsigned();
    let index = load(bytes, block);
    let count = load(bytes, local_address(block, 1));
    count_turn(bytes, block, index, count);
    registers.at = loop_target(registers, count);
    PlainFlow::Jump
}
