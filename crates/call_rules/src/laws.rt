//! The law that the rules of calls and returns and the machine's steps fit each other.
ghost use Rattle.call_rules.specs.CallFitting.{CallFitsStep, ReturnFitsStep};

/// In a state that holds of a process: if the rule of a call, or of a return, is not broken, the step is no fault, it
/// changes only bytes that the process may write, and what the rule says of the state after it holds.
#[tactic(auto, using(crate::proofs::CallFits::call_fits_step, crate::proofs::CallFits::return_fits_step))]
pub fn call_rules_fit_steps()
    ensures call { CallFitsStep }
    ensures return_to_caller { ReturnFitsStep }
{}
