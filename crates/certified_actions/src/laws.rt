//! The laws of what actions and declarations leave known, each the contract of a function that does nothing.

ghost use Rattle.certified_actions.specs.Keeping.{KeptNumbersHold};
ghost use Rattle.certified_actions.specs.Assigning.{AssignmentsFall};
ghost use Rattle.certified_actions.specs.Zeroing.{ScalarsAreZero, ArraysAreFull};
ghost use Rattle.certified_actions.specs.Declaring.{DeclarationsFall};
ghost use Rattle.certified_actions.specs.Messages.{ReceivedBytesAreKnown, SentBytesAreKnown, StopsEnd};
ghost use Rattle.certified_actions.specs.Exchanging.{RootsAreUndisturbed};
ghost use Rattle.certified_actions.specs.Receiving.{InputsFall};
ghost use Rattle.certified_actions.specs.Sending.{OutputsFall};
ghost use Rattle.certified_actions.specs.Actions.{ActionsFall};
ghost use Rattle.certified_actions.specs.Roots.{RootsAllowTheirPieces};
ghost use Rattle.certified_actions.specs.Roots.{RootsMaySchedule, RootsMayUseWords, RootsSend, RootsReceive};
ghost use Rattle.certified_actions.specs.Checked.{CheckedActionsAreReady, ScopesHaveVariables};

/// What a scope says of words stays known where those that are numbers stay so, and both words of each loop.
pub fn scopes_are_kept()
    ensures { KeptNumbersHold }
{}

/// The code of an assignment leads to the scope after it: a scalar has exactly the range of what is assigned to it, and
/// of an array no more is known than before.
pub fn assignments_are_told()
    ensures { AssignmentsFall }
{}

/// The code that sets declared words to 0 leaves known that a scalar is 0, and that the words of an array are any
/// numbers.
pub fn words_are_set()
    ensures scalars { ScalarsAreZero }
    ensures arrays { ArraysAreFull }
{}

/// The code of a declaration that breaks no rule leads to the scope with its names.
pub fn declarations_are_told()
    ensures { DeclarationsFall }
{}

/// `in` and `out` over a link break no rule where the message lies in words that may be written, or in numbers that may
/// be read, and `stopp` ends.
pub fn messages_are_told()
    ensures received { ReceivedBytesAreKnown }
    ensures sent { SentBytesAreKnown }
    ensures stopped { StopsEnd }
{}

/// In the root no name and no temporary is in the words that scheduling takes.
pub fn roots_are_undisturbed()
    ensures { RootsAreUndisturbed }
{}

/// The code of an input leads to the scope after it: a scalar has the range of its type, and of an array no more is
/// known than before.
pub fn inputs_are_told()
    ensures { InputsFall }
{}

/// The code of an output leads to the same scope.
pub fn outputs_are_told()
    ensures { OutputsFall }
{}

/// The code of each action that goes on leads to the scope after it.
pub fn actions_are_told()
    ensures { ActionsFall }
{}

/// An action that breaks no rule is ready, where variables have words of their own and its channel is a link. The
/// variables of a scope have, where its words may be used and no two scalars share one.
pub fn checked_actions_are_told()
    ensures actions { CheckedActionsAreReady }
    ensures variables { ScopesHaveVariables }
{}

/// The root of a module of pieces without PARs may write the words that scheduling takes, and use those that code
/// takes, so that all of its pieces are allowed. It sends over the first four links and receives over the others.
pub fn roots_have_their_rights()
    ensures schedules { RootsMaySchedule }
    ensures words { RootsMayUseWords }
    ensures pieces { RootsAllowTheirPieces }
    ensures sends { RootsSend }
    ensures receives { RootsReceive }
{}
