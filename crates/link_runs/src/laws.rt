//! The laws of runs.

ghost use Rattle.link_runs.specs.RunLaws.{RunsAreMadeOfEvents, OneMomentAfterEachTurn, OneMomentIsLast};
ghost use Rattle.link_runs.specs.RunLaws.{UnaskedBytesChangeNothing};
ghost use Rattle.link_runs.specs.Awaiting.{ArrivalsComeToAnEnd};
ghost use Rattle.link_runs.specs.Deadlocks.{DeadlocksStay};
ghost use Rattle.link_runs.specs.EchoRuns.{EchoRuns};

/// A first-in first-out run is a list of events: its world is the one that they lead to, and what it asks for and
/// writes
/// is what arrives and what is emitted by them.
#[tactic(auto, using(crate::proofs::Events::made_of_events))]
pub fn runs_are_made_of_events()
    ensures { RunsAreMadeOfEvents }
{}

/// A module with these bytes and writers has one run: there is one moment after each number of turns, and one that is
/// the last.
#[tactic(auto, using(crate::proofs::OneRun::one_run))]
pub fn there_is_one_run()
    ensures moments { OneMomentAfterEachTurn }
    ensures last { OneMomentIsLast }
{}

/// More bytes on a link that has not ended change nothing of the run so far but what is left there.
#[tactic(auto, using(crate::proofs::Unasked::unasked_change_nothing))]
pub fn unasked_bytes_change_nothing()
    ensures { UnaskedBytesChangeNothing }
{}

/// A byte that is wanted makes a process run, or leaves fewer bytes that can come before one does.
#[tactic(auto, using(crate::proofs::Arriving::arrivals_end))]
pub fn arrivals_come_to_an_end()
    ensures { ArrivalsComeToAnEnd }
{}

/// A small module that sends on the byte that it receives: the byte is written, none is asked for ahead, and with no
/// byte
/// or no writer the module waits.
#[tactic(auto, using(crate::proofs::EchoRuns::echo_rules))]
pub fn echo_runs()
    ensures { EchoRuns }
{}

/// In a deadlock no byte and no acknowledgement that comes makes a process run, however many come.
#[tactic(auto, using(crate::proofs::Deadlocks::deadlocks_last))]
pub fn deadlocks_stay()
    ensures { DeadlocksStay }
{}
