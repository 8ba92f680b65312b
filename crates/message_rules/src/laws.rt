//! The law that the rules of messages and the machine's steps fit each other.
ghost use Rattle.message_rules.specs.MessageFitting.{InputFitsStep, OutputFitsStep};

/// In a state that holds of a process: if the rule of `in`, or of `out`, is not broken, the step is no fault, it
/// changes only bytes that the process may write, and it asks for a message that the world may grant: over a channel of
/// which the process holds the end, from or to bytes of its own. What the rule says of the state after it holds once
/// the message is exchanged.
#[tactic(auto, using(crate::proofs::MessageFits::input_fits_step, crate::proofs::MessageFits::output_fits_step))]
pub fn message_rules_fit_steps()
    ensures input { InputFitsStep }
    ensures output { OutputFitsStep }
{}
