//! The law that the rules of this family and the machine's steps fit each other.
ghost use Rattle.local_rules.specs.LocalFitting.{LocalRulesFitSteps};

/// In a state that holds of a process: if the rule that this family has of the next instruction is not broken, the step
/// is no fault, it changes only bytes that the process may write, and what the rule says of the state after it holds.
#[tactic(auto, using(crate::proofs::LocalFits::local_rules_fit_steps))]
pub fn local_rules_fit_steps()
    ensures { LocalRulesFitSteps }
{}
