//! The walk over a program: what is known at each place, and which rules are broken there.

ghost use Rattle.std.specs.Prelude.{Some};
ghost use Rattle.occam_parser.specs.Views.{expression_of};
ghost use Rattle.occam_parser.specs.LineViews.{any_of, action_of, guard_of};
ghost use Rattle.scalar_ranges.specs.Scopes.{entries_of, known_of};
ghost use Rattle.program_uses.specs.Signatures.{signatures_of};
ghost use Rattle.usage_checks.specs.LineRules.{BreaksCondition, BreaksConditionIfAny};
ghost use Rattle.usage_checks.specs.ActionRules.{BreaksAction, BreaksGuard};
ghost use Rattle.usage_checks.specs.Following.{where_holds, after_action, after_guard};
ghost use Rattle.usage_checks.specs.NameRules.{with_entries};
ghost use Rattle.program_uses.specs.Telling.{At};
ghost use Rattle.usage_checks.specs.Telling.{Walks};

use crate::action_rules::fault_of_action;
use crate::channel_rules::Position;
use crate::following::{after_action, after_input};
use crate::line_rules::{fault_of_condition, fault_of_input};
use crate::telling::Findings;
use occam_parser::{Action, Expr, Guard};
use program_uses::Signature;
use scalar_ranges::{Scope, narrow_by};

impl Findings {
    /// An action on this line.
    pub(crate) fn walk_action(
        &mut self,
        position: Position,
        signatures: &[Signature],
        scope: &mut Scope,
        line: u32,
        action: &Action,
    )
        ensures { Walks self.old self.new (known_of scope.new)
            (with_entries (after_action (signatures_of signatures.now) (action_of action.now)) (known_of scope.old))
            (At line (BreaksAction position (signatures_of signatures.now) (entries_of scope.old)
            (action_of action.now))) }
    {
        self.tell(line, fault_of_action(position, signatures, scope, action));
        after_action(scope, signatures, action);
    }
    /// A condition on this line, and then where it holds.
    pub(crate) fn walk_condition(&mut self, scope: &mut Scope, line: u32, condition: &Expr)
        ensures { Walks self.old self.new (known_of scope.new)
            (with_entries (where_holds (Some (expression_of condition.now))) (known_of scope.old))
            (At line (BreaksCondition (entries_of scope.old) (expression_of condition.now))) }
    {
        self.tell(line, fault_of_condition(scope, condition));
        narrow_by(scope, condition, true);
    }

    /// A condition on this line, if there is one, and then where it holds.
    fn walk_any(&mut self, scope: &mut Scope, line: u32, condition: &Option<Expr>)
        ensures { Walks self.old self.new (known_of scope.new)
            (with_entries (where_holds (any_of condition.now)) (known_of scope.old))
            (At line (BreaksConditionIfAny (entries_of scope.old) (any_of condition.now))) }
    {
        if let Some(condition) = condition {
            self.walk_condition(scope, line, condition);
        }
    }

    /// A guard on this line, and then where it holds.
    pub(crate) fn walk_guard(
        &mut self,
        position: Position,
        scope: &mut Scope,
        line: u32,
        guard: &Guard,
    )
        ensures { Walks self.old self.new (known_of scope.new)
            (with_entries (after_guard (guard_of guard.now)) (known_of scope.old))
            (At line (BreaksGuard position (entries_of scope.old) (guard_of guard.now))) }
    {
        match guard {
            Guard::Skip { condition } => self.walk_condition(scope, line, condition),
            Guard::Input {
                condition,
                channel,
                target,
            } => {
                self.walk_any(scope, line, condition);
                self.tell(line, fault_of_input(position, scope, channel, target));
                after_input(scope, target);
            }
        }
    }
}
