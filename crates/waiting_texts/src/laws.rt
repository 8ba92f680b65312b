//! The law of processes at rest.

ghost use Rattle.waiting_texts.specs.Resting.{NobodyIsReadyAtRest};

/// Where no process runs, whatever has happened, none is ready.
pub fn nobody_is_ready_at_rest()
    ensures { NobodyIsReadyAtRest }
{}
