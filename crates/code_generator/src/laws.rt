//! The laws of what code programs have, each the contract of a function that does nothing.

ghost use Rattle.code_generator.specs.SequentialCode.{SequentialProgramsHaveCode};
ghost use Rattle.code_generator.specs.SmallCode.{SumsHaveCode, PiecesFollow};

/// Small programs have the code that they should have. One that adds up what it receives has it piece by piece and byte
/// by byte, with what rows say, and how many bytes a run executes at most.
#[tactic(auto, using(crate::proofs::WorkedCode::worked_code))]
pub fn small_programs_have_code()
    ensures sums { SumsHaveCode }
    ensures pieces { PiecesFollow }
{}

/// A program whose last item is a procedure without `PAR`, `ALT` and instances has code.
#[tactic(auto, using(crate::proofs::SequentialCode::sequential_programs_have_code))]
pub fn sequential_programs_have_code()
    ensures { SequentialProgramsHaveCode }
{}
