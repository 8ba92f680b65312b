//! The laws of what programs change, each the contract of a function that does nothing.
ghost use Rattle.program_uses.specs.Outlines.{ChangesFollowOutlines, DeclaringKeepsOutlines};

/// What a process changes depends on the names in scope and what they denote, and not on the ranges, values and
/// sizes that are known of them; and so does what the body of a replicator changes in any turn. What was found in one
/// scope is then right in each with the same outline.
#[tactic(auto, using(crate::proofs::ChangesAlike::changes_follow_outlines))]
pub fn changes_follow_outlines()
    ensures { ChangesFollowOutlines }
{}

/// Scopes with the same outline have one after a declaration too, whether it is declared with all that is known of it
/// or as `add_outlines` does, which knows no more of a table than its type.
#[tactic(auto, using(crate::proofs::ChangesAlike::declaring_keeps_outlines))]
pub fn declaring_keeps_outlines()
    ensures { DeclaringKeepsOutlines }
{}
