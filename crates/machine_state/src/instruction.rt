//! The instructions that the machine has.

ghost use Rattle.std.specs.Prelude.{◌≡◌};
ghost use Rattle.machine_state.specs.Instructions.{instruction_of};

use crate::op::Op;
use prefix_decoder::Fun;
use word_arithmetic::Binary;

/// What an instruction does with its operand.
#[derive(Clone, Copy, Debug)]
pub enum Instruction {
    /// `j`: the process continues at this distance from the next instruction.
    Jump,
    /// `ldlp`: the address of the word with this number from the workspace is pushed.
    LoadLocalPointer,
    /// `ldnl`: A becomes the word with this number from A.
    LoadNonLocal,
    /// `ldc`: the operand is pushed.
    LoadConstant,
    /// `ldnlp`: A becomes the address of the word with this number from A.
    LoadNonLocalPointer,
    /// `ldl`: the word with this number from the workspace is pushed.
    LoadLocal,
    /// `adc`, `eqc`: A becomes the result of an operation on A and the operand.
    WithConstant(Binary),
    /// `call`: the procedure at this distance is called.
    Call,
    /// `cj`: if A is 0, the process continues at this distance, else A is popped.
    ConditionalJump,
    /// `ajw`: the workspace moves by this number of words.
    AdjustWorkspace,
    /// `stl`: A goes to the word with this number from the workspace, and is popped.
    StoreLocal,
    /// `stnl`: B goes to the word with this number from A, and both are popped.
    StoreNonLocal,
    /// An operation, which `opr` chooses by its operand.
    Operate(Op),
}

impl Instruction {
    /// The instruction of a function with its operand; `None` where the machine has none.
    #[tactic(auto, unfolding(crate::specs::Instructions::instruction_of))]
    pub fn of(fun: Fun, operand: i32) -> Option<Self>
        ensures { result ≡ instruction_of fun operand }
    {
        match fun {
            Fun::Jump => Some(Instruction::Jump),
            Fun::LoadLocalPointer => Some(Instruction::LoadLocalPointer),
            Fun::LoadNonLocal => Some(Instruction::LoadNonLocal),
            Fun::LoadConstant => Some(Instruction::LoadConstant),
            Fun::LoadNonLocalPointer => Some(Instruction::LoadNonLocalPointer),
            Fun::LoadLocal => Some(Instruction::LoadLocal),
            Fun::AddConstant => Some(Instruction::WithConstant(Binary::Add)),
            Fun::Call => Some(Instruction::Call),
            Fun::ConditionalJump => Some(Instruction::ConditionalJump),
            Fun::AdjustWorkspace => Some(Instruction::AdjustWorkspace),
            Fun::EqualsConstant => Some(Instruction::WithConstant(Binary::Equal)),
            Fun::StoreLocal => Some(Instruction::StoreLocal),
            Fun::StoreNonLocal => Some(Instruction::StoreNonLocal),
            Fun::Operate => Some(Instruction::Operate(Op::of(operand)?)),
        }
    }
}
