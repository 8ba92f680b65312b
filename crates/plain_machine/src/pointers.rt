//! Words and bytes that pointers lead to.
#![tactic(auto, unfolding(crate::specs::PlainStep::plain_step, crate::specs::PlainStep::plain_operation))]

ghost use Rattle.std.specs.Prelude.{◌≡◌};
ghost use Rattle.machine_state.specs.LocalStep.{address, word_of};
ghost use Rattle.machine_state.specs.Memory.{local_address};
ghost use Rattle.module_format.specs.Stack.{with_top};
ghost use Rattle.machine_state.specs.declared.instruction.Instruction.TheVariants as instruction;
ghost use Rattle.machine_state.specs.declared.op.Op.TheVariants as operation;
ghost use Rattle.plain_machine.specs.PlainStep.{state_of, plain_step, plain_operation, Does, IsSafe, IsOperationSafe};

use crate::flow::PlainFlow;
use crate::registers::PlainRegisters;
use crate::words::{copy, load, load_byte, store, store_byte};
use machine_state::local_address;

/// `ldnlp`: A becomes the address of the word with this number from A.
#[inline]
pub(crate) fn load_non_local_pointer(registers: &mut PlainRegisters, operand: i32)
    ensures { let pointer = word_of (local_address (address registers.old.stack.a) operand) in
        registers.new ≡ record registers.old { stack = with_top pointer registers.old.stack } }
{
    let address = local_address(registers.stack.a.cast_unsigned(), operand);
    registers.set_top(address.cast_signed());
}

/// `ldnl`: A becomes the word with this number from A.
#[inline]
pub(crate) fn load_non_local(
    bytes: &mut [u8],
    registers: &mut PlainRegisters,
    operand: i32,
) -> PlainFlow
    requires { IsSafe instruction.LoadNonLocal operand (state_of registers.old bytes.old) }
    ensures { let step = plain_step 0 instruction.LoadNonLocal operand (state_of registers.old bytes.old) in
        Does step result registers.new bytes.new }
{
    let address = local_address(registers.stack.a.cast_unsigned(), operand);
    let word = load(bytes, address);
    registers.set_top(word);
    PlainFlow::Next
}

/// `stnl`: B goes to the word with this number from A, and both are popped.
#[inline]
pub(crate) fn store_non_local(
    bytes: &mut [u8],
    registers: &mut PlainRegisters,
    operand: i32,
) -> PlainFlow
    requires { IsSafe instruction.StoreNonLocal operand (state_of registers.old bytes.old) }
    ensures { let step = plain_step 0 instruction.StoreNonLocal operand (state_of registers.old bytes.old) in
        Does step result registers.new bytes.new }
{
    let address = local_address(registers.stack.a.cast_unsigned(), operand);
    store(bytes, address, registers.stack.b);
    registers.pop();
    registers.pop();
    PlainFlow::Next
}

/// `lb`: A becomes the byte at A.
#[inline]
pub(crate) fn load_at(bytes: &mut [u8], registers: &mut PlainRegisters) -> PlainFlow
    requires { IsOperationSafe operation.LoadByte (state_of registers.old bytes.old) }
    ensures { let step = plain_operation 0 operation.LoadByte (state_of registers.old bytes.old) in
        Does step result registers.new bytes.new }
{
    let byte = load_byte(bytes, registers.stack.a.cast_unsigned());
    registers.set_top(i32::from(byte));
    PlainFlow::Next
}

/// `sb`: the byte at A becomes the low byte of B, and both are popped.
#[inline]
pub(crate) fn store_at(bytes: &mut [u8], registers: &mut PlainRegisters) -> PlainFlow
    requires { IsOperationSafe operation.StoreByte (state_of registers.old bytes.old) }
    ensures { let step = plain_operation 0 operation.StoreByte (state_of registers.old bytes.old) in
        Does step result registers.new bytes.new }
{
    let [low, ..] = registers.stack.b.to_le_bytes();
    store_byte(bytes, registers.stack.a.cast_unsigned(), low);
    registers.pop();
    registers.pop();
    PlainFlow::Next
}

/// `move`: A bytes go from C to B.
#[inline]
pub(crate) fn move_bytes(bytes: &mut [u8], registers: &mut PlainRegisters) -> PlainFlow
    requires { IsOperationSafe operation.Move (state_of registers.old bytes.old) }
    ensures { let step = plain_operation 0 operation.Move (state_of registers.old bytes.old) in
        Does step result registers.new bytes.new }
{
    let source = registers.stack.c.cast_unsigned();
    let target = registers.stack.b.cast_unsigned();
    let count = registers.stack.a.cast_unsigned();
    copy(bytes, source, target, count);
    PlainFlow::Next
}
