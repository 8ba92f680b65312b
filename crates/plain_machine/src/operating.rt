//! Operations on A, B and C.
#![tactic(auto, unfolding(crate::specs::PlainStep::plain_step, crate::specs::PlainStep::plain_operation))]

ghost use Rattle.plain_machine.specs.PlainStep.{state_of, plain_step, plain_operation, Does, IsSafe, IsOperationSafe};
ghost use Rattle.machine_state.specs.declared.instruction.Instruction.TheVariants as instruction;
ghost use Rattle.machine_state.specs.declared.op.Op.TheVariants as operation;

use crate::flow::PlainFlow;
use crate::registers::PlainRegisters;
use machine_state::{LongOp, Shift, local_address};
use word_arithmetic::{Binary, Unary};

/// `adc` and the like: A becomes the result of the operation on A and the operand.
#[inline]
pub(crate) fn with_constant(
    bytes: &mut [u8],
    registers: &mut PlainRegisters,
    op: Binary,
    operand: i32,
) -> PlainFlow
    requires { IsSafe (instruction.WithConstant op) operand (state_of registers.old bytes.old) }
    ensures { let step = plain_step 0 (instruction.WithConstant op) operand (state_of registers.old bytes.old) in
        Does step result registers.new bytes.new }
{
    let value = op.apply(registers.stack.a, operand).unwrap();
    registers.set_top(value);
    PlainFlow::Next
}

/// An operation of two operands: A and B are popped, and the result of B and A is pushed.
#[inline]
pub(crate) fn binary(bytes: &mut [u8], registers: &mut PlainRegisters, op: Binary) -> PlainFlow
    requires { IsOperationSafe (operation.Binary op) (state_of registers.old bytes.old) }
    ensures { let step = plain_operation 0 (operation.Binary op) (state_of registers.old bytes.old) in
        Does step result registers.new bytes.new }
{
    let value = op.apply(registers.stack.b, registers.stack.a).unwrap();
    registers.replace_two(value);
    PlainFlow::Next
}

/// An operation of one operand: A becomes the result of A.
#[inline]
pub(crate) fn unary(bytes: &mut [u8], registers: &mut PlainRegisters, op: Unary) -> PlainFlow
    requires { IsOperationSafe (operation.Unary op) (state_of registers.old bytes.old) }
    ensures { let step = plain_operation 0 (operation.Unary op) (state_of registers.old bytes.old) in
        Does step result registers.new bytes.new }
{
    let value = op.apply(registers.stack.a).unwrap();
    registers.set_top(value);
    PlainFlow::Next
}

/// `shl`, `shr`: A and B are popped, and B, shifted by A bits, is pushed.
#[inline]
pub(crate) fn shift(bytes: &mut [u8], registers: &mut PlainRegisters, op: Shift) -> PlainFlow
    requires { IsOperationSafe (operation.Shift op) (state_of registers.old bytes.old) }
    ensures { let step = plain_operation 0 (operation.Shift op) (state_of registers.old bytes.old) in
        Does step result registers.new bytes.new }
{
    let value = op.apply(registers.stack.b, registers.stack.a.cast_unsigned());
    registers.replace_two(value);
    PlainFlow::Next
}

/// `lsum`, `ldiff`, `lmul`: A becomes the low word of the result of B, A and C, and B the high one or the carry.
#[inline]
pub(crate) fn long(bytes: &mut [u8], registers: &mut PlainRegisters, op: LongOp) -> PlainFlow
    ensures { let step = plain_operation 0 (operation.Long op) (state_of registers.old bytes.old) in
        Does step result registers.new bytes.new }
{
    let stack = registers.stack;
    let result = op.apply(stack.b, stack.a, stack.c);
    registers.set_two(result.low, result.high);
    PlainFlow::Next
}

/// `bsub`: A and B are popped, and the address B bytes after A is pushed.
#[inline]
pub(crate) fn byte_subscript(bytes: &mut [u8], registers: &mut PlainRegisters) -> PlainFlow
    ensures { let step = plain_operation 0 operation.ByteSubscript (state_of registers.old bytes.old) in
        Does step result registers.new bytes.new }
{
    let base = registers.stack.a.cast_unsigned();
    let address = base.wrapping_add(registers.stack.b.cast_unsigned());
    registers.replace_two(address.cast_signed());
    PlainFlow::Next
}

/// `wsub`: A and B are popped, and the address B words after A is pushed.
#[inline]
pub(crate) fn word_subscript(bytes: &mut [u8], registers: &mut PlainRegisters) -> PlainFlow
    ensures { let step = plain_operation 0 operation.WordSubscript (state_of registers.old bytes.old) in
        Does step result registers.new bytes.new }
{
    let address = local_address(registers.stack.a.cast_unsigned(), registers.stack.b);
    registers.replace_two(address.cast_signed());
    PlainFlow::Next
}

/// `ldpi`: A becomes the address A bytes after the instruction.
#[inline]
pub(crate) fn load_pointer_to_instruction(
    bytes: &mut [u8],
    registers: &mut PlainRegisters,
    code_start: u32,
) -> PlainFlow
    ensures { let before = state_of registers.old bytes.old in
        let step = plain_operation code_start operation.LoadPointerToInstruction before in
        Does step result registers.new bytes.new }
{
    let next = registers.code_address(code_start);
    let pointer = next.wrapping_add(registers.stack.a.cast_unsigned());
    registers.set_top(pointer.cast_signed());
    PlainFlow::Next
}
