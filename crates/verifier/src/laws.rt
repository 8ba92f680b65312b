//! The laws of certified modules, each the contract of a function that does nothing.
ghost use Rattle.std.specs.Prelude.{◌≡◌, ℕ, List, Ok};
ghost use Rattle.module_format.specs.Contents.{Contents};
ghost use Rattle.module_format.specs.Keeping.{Keeps};
ghost use Rattle.machine_state.specs.declared.event.Event.{Event};
ghost use Rattle.machine_state.specs.Happens.{world_after};
ghost use Rattle.states.specs.declared.rule.Rule.{Rule};
ghost use Rattle.certified_worlds.specs.Certified.{IsCertified, IsRefused};
ghost use Rattle.verifier.specs.Judge.{verdict, refused};
ghost use Rattle.certified_worlds.specs.Invariant.{Holds};
ghost use Rattle.verifier.specs.Headline.{AreEvents, RunsWell};
ghost use Rattle.verifier.specs.SmallAlternation.{AlternationIsJudged};
ghost use Rattle.verifier.specs.Upgrading.{AreJudgedAlike, RunAlike, OfUpgraded};

/// No module is both certified and refused.
pub fn not_both()
    ensures { (m : Contents) (rule : Rule) (at : ℕ) → IsCertified m → IsRefused m rule at → ⊥ }
{}

/// One pass over the code decides: what it accepts is certified, and what it refuses is refused by that
/// rule at that offset.
pub fn verdict_is_right()
    ensures accepts { (m : Contents) → Keeps m → verdict m ≡ Ok tt → IsCertified m }
    ensures refuses { (m : Contents) (rule : Rule) (at : ℕ) → Keeps m
        → verdict m ≡ refused rule at → IsRefused m rule at }
{}

/// In every world that a list of events leads to, the invariant of a certified module holds.
pub fn certified_runs_hold_the_invariant()
    ensures { (m : Contents) (es : List Event) → Keeps m → IsCertified m → AreEvents es
        → Holds m (world_after m es) }
{}

/// For every list of events a certified module runs without a fault, all holdings stay apart, and at most the
/// budget of instruction bytes is executed. Each further event changes and reads only bytes that the running process
/// may, or that a process may which waits for a message, and costs a byte only if it is a step of a process.
pub fn certified_modules_run_well()
    ensures { (m : Contents) → Keeps m → IsCertified m → RunsWell m }
{}

/// A small module that alternates between two links is accepted, and its variations are refused, each by the rule that
/// it breaks.
#[tactic(auto, using(crate::proofs::ChoiceIsCertified::alternation_is_judged))]
pub fn a_small_alternation_is_judged()
    ensures { AlternationIsJudged }
{}

/// A module and the one that it is upgraded to are both certified, or neither is, and at each offset the same rules are
/// refused.
pub fn upgraded_is_certified()
    ensures { OfUpgraded AreJudgedAlike }
{}

/// A module and the one that it is upgraded to run alike, whether they are certified or not.
pub fn upgraded_runs_alike()
    ensures { OfUpgraded RunAlike }
{}
