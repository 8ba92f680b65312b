//! Laws of the rules of PARs.

ghost use Rattle.par_rules.specs.Pair.{PairIsAccepted, PairIsRefused};
ghost use Rattle.par_rules.specs.PairOverChannel.{SendingIsJudged};

/// A module that starts two branches is accepted. It is refused by its rule if something is not paid, a branch is not
/// there, a word is given twice or is none to give, the label after the PAR is another one, or a label says what is not
/// known: of a word that scheduling takes, or that a branch leaves otherwise.
#[tactic(auto, using(crate::proofs::PairJudged::pair_is_accepted, crate::proofs::PairJudged::pair_is_refused))]
pub fn rules_judge_pair()
    ensures accepted { PairIsAccepted }
    ensures refused { PairIsRefused }
{}

/// A module of which one branch sends to the other is accepted. It is refused if both are given the same end, a branch
/// is given the channel's word, or the label after the PAR says what the branch that receives does not know.
#[tactic(auto, using(crate::proofs::PairJudged::sending_is_judged))]
pub fn rules_judge_sending()
    ensures { SendingIsJudged }
{}
