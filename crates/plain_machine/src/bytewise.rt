//! The code, a byte at a time.

ghost use Rattle.std.specs.Prelude.{◌≡◌, ◌+◌, ◌<◌, ◌^◌};
ghost use Rattle.prefix_decoder.specs.Functions.{fun_of};
ghost use Rattle.prefix_decoder.specs.Operand.{IsRegister};
ghost use Rattle.machine_state.specs.Instructions.{instruction_of};
ghost use Rattle.plain_machine.specs.PlainByte.{function_step, byte_step, operand_after, IsFunctionSafe, IsByteSafe};
ghost use Rattle.plain_machine.specs.PlainStep.{state_of, Does};

use crate::decoded::{DecodedInstruction, DecodedOperation};
use crate::flow::PlainFlow;
use crate::performing::perform;
use crate::registers::PlainRegisters;
use prefix_decoder::Fun;
use prefix_decoder::operand::{after_prefix, with_nibble};

/// Executes one function of the process that runs with its whole operand. The machine has the instruction.
#[inline(always)]
fn execute(
    bytes: &mut [u8],
    registers: &mut PlainRegisters,
    code_start: u32,
    fun: Fun,
    operand: i32,
) -> PlainFlow
    requires { IsFunctionSafe (instruction_of fun operand) operand (state_of registers.old bytes.old) }
    ensures { let s = state_of registers.old bytes.old in
        Does (function_step code_start (instruction_of fun operand) operand s) result registers.new bytes.new }
{
    let operation = DecodedOperation::of(fun, operand);
    let instruction = DecodedInstruction {
        operation,
        length: 1,
        second: 0,
        operand,
    };
    match perform(bytes, registers, code_start, &instruction) {
        Some(flow) => flow,
        None => match operation.asked() {
            Some(flow) => flow,
            None => unreachable!(),
        },
    }
}

/// The function with this code, none at the prefixes.
#[inline(always)]
fn function_with(code: u8) -> Option<Fun>
    requires { code < 16 }
    ensures { result ≡ fun_of code }
{
    match code {
        0x0 => Some(Fun::Jump),
        0x1 => Some(Fun::LoadLocalPointer),
        0x3 => Some(Fun::LoadNonLocal),
        0x4 => Some(Fun::LoadConstant),
        0x5 => Some(Fun::LoadNonLocalPointer),
        0x7 => Some(Fun::LoadLocal),
        0x8 => Some(Fun::AddConstant),
        0x9 => Some(Fun::Call),
        0xa => Some(Fun::ConditionalJump),
        0xb => Some(Fun::AdjustWorkspace),
        0xc => Some(Fun::EqualsConstant),
        0xd => Some(Fun::StoreLocal),
        0xe => Some(Fun::StoreNonLocal),
        0x2 | 0x6 => None,
        _ => Some(Fun::Operate),
    }
}

/// Executes this byte of the process that runs, of code that begins at this address: a prefix goes to the operand,
/// and any other byte completes an instruction. `operand` is 0 between two instructions. Nothing is tested.
#[inline(always)]
pub fn execute_byte(
    bytes: &mut [u8],
    registers: &mut PlainRegisters,
    operand: &mut i32,
    byte: u8,
    code_start: u32,
) -> PlainFlow
    requires small { registers.old.at + 1 < 2 ^ 32 }
    requires register { IsRegister operand.old }
    requires safe { IsByteSafe byte operand.old (state_of registers.old bytes.old) }
    ensures step { let step = byte_step code_start byte operand.old (state_of registers.old bytes.old) in
        Does step result registers.new bytes.new }
    ensures operand { operand.new ≡ operand_after byte operand.old }
    ensures register { IsRegister operand.new }
{
    registers.at += 1;
    let whole = with_nibble(*operand, byte);
    let function = byte >> 4;
    let flow = match function_with(function) {
        Some(fun) => {
            *operand = 0;
            execute(bytes, registers, code_start, fun, whole)
        }
        None => {
            *operand = after_prefix(function, whole);
            PlainFlow::Next
        }
    };
    flow
}
