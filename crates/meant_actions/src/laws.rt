//! The laws of what the code of actions does, each the contract of a function that does nothing.

ghost use Rattle.meant_actions.specs.Acting.{SkipsBehave, StopsBehave};
ghost use Rattle.meant_actions.specs.Actions.{ActionsBehave};
ghost use Rattle.meant_actions.specs.Assigning.{AssignmentsBehave};
ghost use Rattle.meant_actions.specs.Checked.{CheckedActionsAreReady};
ghost use Rattle.meant_actions.specs.Exchanging.{RootsAreUndisturbed};
ghost use Rattle.meant_actions.specs.Receiving.{InputsBehave};
ghost use Rattle.meant_actions.specs.Sending.{OutputsBehave};

/// `SKIP` leaves the environment as it is, and `STOP` halts.
pub fn nothing_is_done()
    ensures skips { SkipsBehave }
    ensures stops { StopsBehave }
{}

/// In the root no name and no temporary is in the words that scheduling takes.
pub fn undisturbed_frames_carry()
    ensures { RootsAreUndisturbed }
{}

/// The code of an assignment stores the number of the value in the variable, and memory carries the environment after
/// it.
pub fn assignments_behave()
    ensures { AssignmentsBehave }
{}

/// The code of an input asks for a message, and stores the number that its bytes are in the variable.
pub fn inputs_behave()
    ensures { InputsBehave }
{}

/// The code of an output sends the message of the value.
pub fn outputs_behave()
    ensures { OutputsBehave }
{}

/// The code of each action makes a process do what the action means.
pub fn actions_behave()
    ensures { ActionsBehave }
{}

/// An action that breaks no rule is ready, where variables have words of their own and its channel is a port.
pub fn checked_actions_are_ready()
    ensures { CheckedActionsAreReady }
{}
