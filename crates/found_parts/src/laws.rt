//! What is named is a reason.

ghost use Rattle.found_parts.specs.Asking.{NamedIsUnmet, NamedIsShared};

/// Where a condition of a start is named, not all is so that `startp` asks by rule V12 of the branch that is found.
pub fn named_conditions_are_unmet()
    ensures { NamedIsUnmet }
{}

/// Where something is named that a branch shares, it is not apart from the branches that the process has started.
pub fn named_parts_are_shared()
    ensures { NamedIsShared }
{}
