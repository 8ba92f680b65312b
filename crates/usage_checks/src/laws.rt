//! The laws of the walk and of programs that break no rule, each the contract of a function that does nothing.
ghost use Rattle.usage_checks.specs.Outlines.{OutlinesStay};
ghost use Rattle.usage_checks.specs.Reaching.{PlacesHold, ItemsHold, SignaturesStay};
ghost use Rattle.usage_checks.specs.Unshared.{NothingShared};
ghost use Rattle.usage_checks.specs.RangesStay.{RangesStay};
ghost use Rattle.usage_checks.specs.TypedRanges.{RangesAreTyped};
ghost use Rattle.usage_checks.specs.NeverStuck.{ProgramsGoOn};

/// At each place that the walk over such a program comes to, no rule is broken in what is there. Constants in scope
/// have their values, arrays their sizes, and procedures their parameters. The names of its first line are found, their
/// types fit, expressions have a range, and what has to be constant has a value.
///
/// A place is reached by the walk's own moves, from the body of a procedure on; so whoever makes these moves, from a
/// scope that is known, is at places that are reached.
#[tactic(auto, using(crate::proofs::PlacesHold::places_hold))]
pub fn places_hold()
    ensures { PlacesHold }
{}

/// The same of each item, where those before it are known, and of the formals of a procedure.
#[tactic(auto, using(crate::proofs::PlacesHold::items_hold))]
pub fn items_hold()
    ensures { ItemsHold }
{}

/// The procedures before an item have the same numbers and parameters among all procedures.
#[tactic(auto, using(crate::proofs::PlacesHold::signatures_stay))]
pub fn signatures_stay()
    ensures { SignaturesStay }
{}

/// What the components of PARs share is checked in the body of a procedure, by the names that are declared there; so at
/// each place in it, with what is declared between, they share nothing.
#[tactic(auto, using(crate::proofs::NothingShared::nothing_shared))]
pub fn nothing_shared()
    ensures { NothingShared }
{}

/// Where the walk goes on after a process or a component of a block, the same names are in scope as before, and denote
/// the same but for ranges, values and sizes. The same holds where a component begins, and where a turn of a replicator
/// does, which has its index besides. So what depends on the outline of a scope alone, as what a process changes does,
/// can be found before the walk.
#[tactic(auto, using(crate::proofs::OutlinesStay::outlines_stay))]
pub fn outlines_stay()
    ensures { OutlinesStay }
{}

/// Where a process or a construct ends, the blocks around it are as before it. Of the names that were in scope there,
/// each has at its end a range within the one before, but for the variables that it changes.
#[tactic(auto, using(crate::proofs::RangesStay::ranges_stay))]
pub fn ranges_stay()
    ensures { RangesStay }
{}

/// At each place that the walk over a program comes to which breaks no rule, each range lies within its type, and the
/// value of each constant is one of its type, if the literals of the program are words and bytes.
#[tactic(auto, using(crate::proofs::RangesTyped::ranges_are_typed))]
pub fn ranges_are_typed()
    ensures { RangesAreTyped }
{}

/// A sequential program that breaks no rule never comes to an expression without a value or to a subscript outside,
/// whatever comes in on its links and whoever listens to them.
#[tactic(auto, using(crate::proofs::ProgramsGoWell::programs_go_on))]
pub fn programs_go_on()
    ensures { ProgramsGoOn }
{}
