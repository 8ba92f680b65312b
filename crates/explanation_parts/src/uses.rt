//! The registers that instructions use.

ghost use Rattle.std.specs.Prelude.{◌≡◌};
ghost use Rattle.explanation_parts.specs.Uses.{used_by, used, used_for_pars};

use machine_state::{Instruction, Op};

/// How many registers are used, from A on.
#[derive(Clone, Copy)]
pub enum Uses {
    Nothing,
    A,
    AAndB,
    All,
}

/// The registers that an operation uses.
#[tactic(auto, unfolding(crate::specs::Uses::used_by))]
pub(crate) fn used_by(op: Op) -> Uses
    ensures { result ≡ used_by op }
{
    match op {
        Op::Unary(_)
        | Op::LoadByte
        | Op::LoadPointerToInstruction
        | Op::EndProcess
        | Op::EnableSkip => Uses::A,
        Op::Binary(_)
        | Op::Shift(_)
        | Op::StoreByte
        | Op::ByteSubscript
        | Op::WordSubscript
        | Op::CheckSubscript
        | Op::CheckCount
        | Op::StartProcess
        | Op::LoopEnd
        | Op::EnableChannel
        | Op::DisableSkip => Uses::AAndB,
        Op::Long(_) | Op::Move | Op::Input | Op::Output | Op::DisableChannel => Uses::All,
        _ => Uses::Nothing,
    }
}

/// The registers that an instruction uses.
#[tactic(auto, unfolding(crate::specs::Uses::used))]
pub fn used(instruction: Instruction) -> Uses
    ensures { result ≡ used instruction }
{
    match instruction {
        Instruction::WithConstant(_)
        | Instruction::ConditionalJump
        | Instruction::StoreLocal
        | Instruction::LoadNonLocalPointer
        | Instruction::LoadNonLocal => Uses::A,
        Instruction::StoreNonLocal => Uses::AAndB,
        Instruction::Call => Uses::All,
        Instruction::Operate(op) => used_by(op),
        _ => Uses::Nothing,
    }
}

/// The registers that an instruction uses for a PAR.
#[tactic(auto, unfolding(crate::specs::Uses::used_for_pars))]
pub(crate) fn used_for_pars(instruction: Instruction) -> Uses
    ensures { result ≡ used_for_pars instruction }
{
    match instruction {
        Instruction::Operate(Op::EndProcess) => Uses::A,
        Instruction::Operate(Op::StartProcess) => Uses::AAndB,
        _ => Uses::Nothing,
    }
}
