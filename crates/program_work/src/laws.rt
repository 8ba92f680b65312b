//! The laws of this crate, each the contract of a function that does nothing.

ghost use Rattle.program_work.specs.Programs.{SequentialIsTested};

/// A process that is sequential by the meaning of programs is so by the test. The last item of a program that is
/// sequential is a procedure with such a body.
#[tactic(auto, using(crate::proofs::SequentialTested::sequential_is_tested))]
pub fn sequential_is_tested()
    ensures { SequentialIsTested }
{}
