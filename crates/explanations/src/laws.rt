//! The law of explanations, the contract of a function that does nothing.

ghost use Rattle.module_format.specs.Contents.{Contents};
ghost use Rattle.verifier.specs.Judge.{verdict};
ghost use Rattle.explanations.specs.Explaining.{explanation};
ghost use Rattle.explanations.specs.Endings.{Tells};

/// An explanation ends as the verdict says: with the budget of an accepted module, or with the number of the rule that
/// is broken, and where.
pub fn explanations_tell_the_verdict()
    ensures { (m : Contents) → Tells m (verdict m) (explanation m) }
{}
