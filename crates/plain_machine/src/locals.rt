//! Words of the workspace, and those that pointers lead to.
#![tactic(auto, unfolding(crate::specs::PlainStep::plain_step, crate::specs::PlainStep::plain_operation))]

ghost use Rattle.std.specs.Prelude.{◌≡◌};
ghost use Rattle.machine_state.specs.LocalStep.{word_of};
ghost use Rattle.machine_state.specs.Memory.{local_address};
ghost use Rattle.module_format.specs.Stack.{pushed};
ghost use Rattle.machine_state.specs.declared.instruction.Instruction.TheVariants as instruction;
ghost use Rattle.plain_machine.specs.PlainStep.{state_of, plain_step, Does, IsSafe};

use crate::flow::PlainFlow;
use crate::registers::PlainRegisters;
use crate::words::{load, store};
use machine_state::local_address;

/// `ldlp`: the address of the word with this number from the workspace is pushed.
#[inline]
pub(crate) fn load_local_pointer(registers: &mut PlainRegisters, operand: i32)
    ensures { let pointer = word_of (local_address registers.old.workspace operand) in
        registers.new ≡ record registers.old { stack = pushed pointer registers.old.stack } }
{
    let address = local_address(registers.workspace, operand);
    registers.stack.push(address.cast_signed());
}

/// `ldl`: the word with this number from the workspace is pushed.
#[inline]
pub(crate) fn load_local(
    bytes: &mut [u8],
    registers: &mut PlainRegisters,
    operand: i32,
) -> PlainFlow
    requires { IsSafe instruction.LoadLocal operand (state_of registers.old bytes.old) }
    ensures { let step = plain_step 0 instruction.LoadLocal operand (state_of registers.old bytes.old) in
        Does step result registers.new bytes.new }
{
    let word = load(bytes, local_address(registers.workspace, operand));
    registers.stack.push(word);
    PlainFlow::Next
}

/// `stl`: A goes to the word with this number from the workspace, and is popped.
#[inline]
pub(crate) fn store_local(
    bytes: &mut [u8],
    registers: &mut PlainRegisters,
    operand: i32,
) -> PlainFlow
    requires { IsSafe instruction.StoreLocal operand (state_of registers.old bytes.old) }
    ensures { let step = plain_step 0 instruction.StoreLocal operand (state_of registers.old bytes.old) in
        Does step result registers.new bytes.new }
{
    let address = local_address(registers.workspace, operand);
    store(bytes, address, registers.stack.a);
    registers.pop();
    PlainFlow::Next
}
