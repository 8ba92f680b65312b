//! The verdicts on small modules.

ghost use Rattle.worked_verdicts.specs.SmallMessages.{EchoIsJudged};
ghost use Rattle.worked_verdicts.specs.SmallPars.{PairIsJudged, SendingIsJudged};

/// A small module that takes a byte from a link and sends it back is accepted, and its variations are refused, each by
/// the rule that it breaks.
#[tactic(auto, using(crate::proofs::EchoIsJudged::echo_is_judged))]
pub fn a_small_echo_is_judged()
    ensures { EchoIsJudged }
{}

/// A small module whose two branches write a word each is accepted, and its variations are refused, each by the rule
/// that it breaks.
#[tactic(auto, using(crate::proofs::ParsAreJudged::pair_is_judged))]
pub fn a_small_par_is_judged()
    ensures { PairIsJudged }
{}

/// A small module of which one branch sends a word to the other over a channel inside is accepted, and its variations
/// are refused, each by the rule that it breaks.
#[tactic(auto, using(crate::proofs::ParsAreJudged::sending_is_judged))]
pub fn a_small_channel_is_judged()
    ensures { SendingIsJudged }
{}
