//! The laws of which programs have code, each the contract of a function that does nothing.

ghost use Rattle.called_code.specs.CalledCode.{CalledProceduresHaveCode, ProgramsWithoutParHaveCode};
ghost use Rattle.called_code.specs.SmallCalls.{LawsApply};

/// A program that breaks no rule has code, if neither `main` nor a procedure that is called has a `PAR` or an `ALT`:
/// one is called if an instance of it stands in `main` or in a procedure that is called.
#[tactic(auto, using(crate::proofs::CalledCode::called_procedures_have_code))]
pub fn called_procedures_have_code()
    ensures { CalledProceduresHaveCode }
{}

/// A program that breaks no rule, and in which there is neither a `PAR` nor an `ALT`, has code.
#[tactic(auto, using(crate::proofs::CalledCode::programs_without_par_have_code))]
pub fn programs_without_par_have_code()
    ensures { ProgramsWithoutParHaveCode }
{}

/// Both laws apply to a small program with an instance, `calls` of the small programs whose code is known piece by
/// piece.
#[tactic(auto, using(crate::proofs::SmallCalls::laws_apply))]
pub fn laws_apply_to_instances()
    ensures { LawsApply }
{}
