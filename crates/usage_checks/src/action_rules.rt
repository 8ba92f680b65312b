//! The rules of actions.

ghost use Rattle.occam_parser.specs.LineViews.{action_of};
ghost use Rattle.scalar_ranges.specs.Scopes.{entries_of};
ghost use Rattle.program_uses.specs.Lowest.{IsLowest};
ghost use Rattle.program_uses.specs.Signatures.{signatures_of};
ghost use Rattle.usage_checks.specs.ActionRules.{BreaksAction};

use crate::channel_rules::Position;
use crate::instance_rules::fault_of_instance;
use crate::line_rules::{fault_of_assignment, fault_of_input, fault_of_output};
use occam_parser::Action;
use program_uses::Signature;
use scalar_ranges::Scope;

/// The lowest number of the rules that an action breaks.
pub(crate) fn fault_of_action(
    position: Position,
    signatures: &[Signature],
    scope: &Scope,
    action: &Action,
) -> Option<u8>
    ensures { IsLowest
        (BreaksAction position (signatures_of signatures.now) (entries_of scope.now) (action_of action.now)) result }
{
    match action {
        Action::Skip | Action::Stop => None,
        Action::Assign { target, value } => fault_of_assignment(scope, target, value),
        Action::Input { channel, target } => fault_of_input(position, scope, channel, target),
        Action::Output { channel, value } => fault_of_output(position, scope, channel, value),
        Action::Instance { name, actuals } => {
            fault_of_instance(position, scope, signatures, name, actuals)
        }
    }
}
