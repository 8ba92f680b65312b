//! The law of what is read.

ghost use Rattle.tpm_actions.specs.EnoughRead.{BeginningsDecide};

/// What is read of a file decides what is answered. Either all of it is read, or it is refused for what was read: a
/// source that is too large, or a file that begins with no magic, whatever follows.
#[tactic(auto, using(crate::proofs::EnoughRead::beginnings_decide))]
pub fn beginnings_decide()
    ensures { BeginningsDecide }
{}
