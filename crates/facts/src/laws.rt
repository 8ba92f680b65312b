//! The law that the rules and the machine's steps fit each other.
ghost use Rattle.facts.specs.RulesFit.{RulesFitSteps};

/// In a state that holds of a process: if the rule of the next instruction is not broken, the step is no fault, it
/// changes only bytes that the process may write, and what the rule says of the state after it holds.
#[tactic(auto, using(crate::proofs::Local::rules_fit_steps))]
pub fn rules_fit_steps()
    ensures { RulesFitSteps }
{}
