//! Calls, returns and jumps.
#![tactic(auto, unfolding(crate::specs::PlainStep::plain_step, crate::specs::PlainStep::plain_operation))]

ghost use Rattle.std.specs.Prelude.{◌≡◌, ◌+◌, ◌-◌, ◌%◌, ◌^◌};
ghost use Rattle.machine_state.specs.declared.instruction.Instruction.TheVariants as instruction;
ghost use Rattle.machine_state.specs.declared.op.Op.TheVariants as operation;
ghost use Rattle.plain_machine.specs.Plain.{defined};
ghost use Rattle.plain_machine.specs.PlainStep.{state_of, plain_step, plain_operation, Does, IsSafe, IsOperationSafe};
ghost use Rattle.plain_machine.specs.PlainStep.{HasCallWords, with_call_words};

use crate::flow::PlainFlow;
use crate::registers::PlainRegisters;
use crate::words::{load, store};
use machine_state::local_address;

/// `cj`: if A is 0, the process goes on at the distance of the operand, and otherwise A is popped.
#[inline(always)]
pub(crate) fn conditional_jump(
    bytes: &mut [u8],
    registers: &mut PlainRegisters,
    operand: i32,
) -> PlainFlow
    ensures { let step = plain_step 0 instruction.ConditionalJump operand (state_of registers.old bytes.old) in
        Does step result registers.new bytes.new }
{
    if registers.stack.a.cast_unsigned() == 0 {
        registers.at = registers.target(operand);
    } else {
        registers.pop();
    }
    PlainFlow::Next
}

/// The four words below the workspace take C, B, A and the address after the instruction.
#[inline(always)]
#[tactic(auto, using(machine_state::proofs::Reading::lengths))]
fn store_call_words(bytes: &mut [u8], registers: &PlainRegisters, code_start: u32)
    requires { HasCallWords (defined bytes.old) registers.now.workspace }
    ensures { defined bytes.new ≡ with_call_words code_start (state_of registers.now bytes.old) }
{
    let workspace = registers.workspace;
    let back = registers.code_address(code_start).cast_signed();
    store(bytes, local_address(workspace, -1), registers.stack.c);
    store(bytes, local_address(workspace, -2), registers.stack.b);
    store(bytes, local_address(workspace, -3), registers.stack.a);
    store(bytes, local_address(workspace, -4), back);
}

/// `call`: the four words below the workspace take C, B, A and the address after the instruction. The process goes on
/// at the distance of the operand, with the lowest of them as its workspace.
#[inline(always)]
pub(crate) fn call(
    bytes: &mut [u8],
    registers: &mut PlainRegisters,
    code_start: u32,
    operand: i32,
) -> PlainFlow
    requires { IsSafe instruction.Call operand (state_of registers.old bytes.old) }
    ensures { let step = plain_step code_start instruction.Call operand (state_of registers.old bytes.old) in
        Does step result registers.new bytes.new }
{
    store_call_words(bytes, registers, code_start);
    registers.at = registers.target(operand);
    registers.workspace = local_address(registers.workspace, -4);
    PlainFlow::Next
}

/// `ret`: the process goes on at the address in the word at its workspace, and leaves four words.
#[inline(always)]
pub(crate) fn return_from_call(
    bytes: &mut [u8],
    registers: &mut PlainRegisters,
    code_start: u32,
) -> PlainFlow
    requires { IsOperationSafe operation.Return (state_of registers.old bytes.old) }
    ensures { let step = plain_operation code_start operation.Return (state_of registers.old bytes.old) in
        Does step result registers.new bytes.new }
{
    let back = load(bytes, registers.workspace).cast_unsigned();
    registers.at = back.wrapping_sub(code_start);
    registers.workspace = local_address(registers.workspace, 4);
    PlainFlow::Next
}
