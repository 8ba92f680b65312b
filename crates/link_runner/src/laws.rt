//! The laws of what a run asks for.

ghost use Rattle.link_runner.specs.AskedBytes.{RunsOfBytesCanHappen};

/// A run that asks for bytes is made of events that can happen, so the runs of accepted modules are at no fault.
pub fn runs_of_bytes_can_happen()
    ensures { RunsOfBytesCanHappen }
{}
