//! Laws of the definitions.

ghost use Rattle.traffic.specs.Beside.{ArrivesBeside, AcknowledgesBeside, ReceivesBeside, SendsBeside};

/// What comes of an arrival and of an acknowledgement does not depend on what is counted, nor on a fault.
#[tactic(auto, using(crate::proofs::Beside::arrives_beside, crate::proofs::Beside::acknowledges_beside))]
pub fn links_read_no_counters()
    ensures arrivals { ArrivesBeside }
    ensures acknowledgements { AcknowledgesBeside }
{}

/// What comes of a message does not depend on what is counted, nor on a fault.
#[tactic(auto, using(crate::proofs::MessagesBeside::receives_beside, crate::proofs::MessagesBeside::sends_beside))]
pub fn messages_read_no_counters()
    ensures receptions { ReceivesBeside }
    ensures sendings { SendsBeside }
{}
