//! How a process goes on after an instruction.

ghost use Rattle.std.specs.Prelude.{◌≡◌};
ghost use Rattle.facts.specs.Rules.{way_of_decoded};

use machine_state::{Instruction, Op};

/// How a process goes on after an instruction, as far as a caller has to know before the instruction is judged.
#[derive(Clone, Copy)]
pub enum Way {
    /// At one or two places, or nowhere (`advance`).
    GoesOn,
    /// It ends an alternation, and goes on where a guard leads (`leave`).
    EndsAlternation,
    /// It starts a branch of a PAR, which begins at a label (`start`).
    StartsBranch,
}

/// The way of an instruction. What is none goes on, and breaks a rule then.
pub fn way_of(instruction: Option<Instruction>) -> Way
    ensures { result ≡ way_of_decoded instruction }
{
    match instruction {
        Some(Instruction::Operate(Op::AlternationEnd)) => Way::EndsAlternation,
        Some(Instruction::Operate(Op::StartProcess)) => Way::StartsBranch,
        _ => Way::GoesOn,
    }
}
