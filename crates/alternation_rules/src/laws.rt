//! Laws of the rules of alternations.
ghost use Rattle.alternation_rules.specs.AlternationFitting.{AlternationFitsStep, AlternationEndFitsStep};
ghost use Rattle.alternation_rules.specs.Choice.{ChoiceIsJudged};
ghost use Rattle.alternation_rules.specs.ModesAsked.{ModesAreAsked};
ghost use Rattle.alternation_rules.specs.SameGuards.{TestsCompare};

/// Each operation breaks a rule unless it is in its mode: `alt` in the middle of nothing, `enbc`, `enbs` and `altwt`
/// while guards are enabled, `disc`, `diss` and `altend` while they are disabled.
#[tactic(auto, using(crate::proofs::AlternationOtherModes::modes_are_asked))]
pub fn operations_ask_their_mode()
    ensures { ModesAreAsked }
{}

/// What guards wait for, and their names, pass the tests that compare them exactly if they are the same. So a new
/// channel is that of no guard, and if no guard passes the test of a word, none is named by it.
#[tactic(auto, using(crate::proofs::EqualGuards::tests_compare))]
pub fn tests_tell_guards_apart()
    ensures { TestsCompare }
{}

/// A module that alternates between two links goes on at the labels of its guards. It is refused if an end is not held,
/// a guard is disabled by another name, a label is missing, or the number does not cover what is paid.
#[tactic(auto, using(crate::proofs::ChoiceJudged::choice_is_judged))]
pub fn rules_judge_choice()
    ensures { ChoiceIsJudged }
{}

/// In a state that holds of a process: if the rule of an operation is not broken, the step is no fault, it changes
/// only bytes that the process may write, and it asks what the world may grant: a channel of which the process holds
/// the end, and a guard that is new, or the next one of the list. At the end of an alternation the process goes on at a
/// label whose state holds, where the machine has selected the exit of one of the guards once all are disabled.
#[tactic(auto, using(crate::proofs::AlternationFits::alternation_fits_step, crate::proofs::AlternationFits::alternation_end_fits_step))]
pub fn alternation_rules_fit_steps()
    ensures operations { AlternationFitsStep }
    ensures end { AlternationEndFitsStep }
{}
