//! The laws of bounds, each the contract of a function that does nothing.
ghost use Rattle.scalar_ranges.specs.Laws.{BoundsHold, ConstantsHold, NarrowingHolds};
ghost use Rattle.scalar_ranges.specs.MoveLaws.{DeclaringHolds, LeavingHolds, ChangingHolds, HoldingHolds};
ghost use Rattle.scalar_ranges.specs.Nesting.{NestedEndsHold};
ghost use Rattle.scalar_ranges.specs.Changes.{ListsHold};
ghost use Rattle.scalar_ranges.specs.MoveLaws.{WideningHolds, BranchesHold, ComponentsHold, ExcludingHolds};
ghost use Rattle.scalar_ranges.specs.MoveLaws.{ShapesStay};

/// Where a well typed expression has a bound, it has a value as the bound says in every environment that meets the
/// scope.
#[tactic(auto, using(crate::proofs::BoundLaws::bounds_hold))]
pub fn bounds_hold()
    ensures { BoundsHold }
{}

/// The value of a constant expression is the number that it has in the environment of the constants alone.
#[tactic(auto, using(crate::proofs::ConstantLaws::constants_hold))]
pub fn constants_hold()
    ensures { ConstantsHold }
{}

/// Where a well typed condition has a truth, the environments that meet the scope meet it narrowed by that truth.
#[tactic(auto, using(crate::proofs::NarrowingLaws::narrowing_holds))]
pub fn narrowing_holds()
    ensures { NarrowingHolds }
{}

/// An environment that meets a scope meets it with one declaration more, if what is declared holds what its meaning
/// says, and with the outermost declarations alone.
#[tactic(auto, using(crate::proofs::MoveLaws::declaring_holds, crate::proofs::MoveLaws::leaving_holds))]
pub fn names_hold()
    ensures declaring { DeclaringHolds }
    ensures leaving { LeavingHolds }
{}

/// An environment that meets a scope, and of which something changes, meets the scope with the range of what was
/// assigned, or of the type where no more is known.
#[tactic(auto, using(crate::proofs::MoveLaws::changing_holds, crate::proofs::MoveLaws::holding_holds))]
pub fn changes_hold()
    ensures changing { ChangingHolds }
    ensures holding { HoldingHolds }
{}

/// An environment that meets a scope, and in which a loop's body changes some variables, meets the scope where nothing
/// more is known of these than their types.
#[tactic(auto, using(crate::proofs::MoveLaws::widening_holds))]
pub fn loops_hold()
    ensures { WideningHolds }
{}

/// An environment that meets the end of a branch meets what is known after the block, if both ends have one shape, as
/// they have in blocks that nest. What each component of a PAR changes is as its end says, the rest as before. An
/// environment where a condition does not hold, with which a choice begins, meets what the further choices begin with.
#[tactic(auto, using(crate::proofs::Nesting::laws_of_branches, crate::proofs::Excluding::excluding_holds))]
pub fn branches_hold()
    ensures branches { BranchesHold }
    ensures nested { NestedEndsHold }
    ensures components { ComponentsHold }
    ensures excluding { ExcludingHolds }
{}

/// The ends of the branches of a block have the names of its beginning, with the same meanings but for the ranges of
/// scalars.
#[tactic(auto, using(crate::proofs::MoveLaws::shapes_stay))]
pub fn shapes_stay()
    ensures { ShapesStay }
{}

/// A program can have blocks of branches by lists of what changed in them: each move of such lists is the move of what
/// is known, and a list has each entry once at most.
#[tactic(auto, using(crate::proofs::Cutting::lists_hold))]
pub fn lists_hold()
    ensures { ListsHold }
{}
