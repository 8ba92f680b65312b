//! The rules of single lines: assignments, inputs, outputs, conditions and replicators.

ghost use Rattle.std.specs.Prelude.{◌≡◌};
ghost use Rattle.occam_parser.specs.Views.{expression_of};
ghost use Rattle.occam_parser.specs.LineViews.{place_of, replicator_of};
ghost use Rattle.scalar_ranges.specs.Scopes.{entries_of};
ghost use Rattle.program_uses.specs.Lowest.{IsLowest};
ghost use Rattle.usage_checks.specs.LineRules.{BreaksAssignment, BreaksInput, BreaksOutput, BreaksCondition};
ghost use Rattle.usage_checks.specs.LineRules.{fits_word, IsNoCount, BreaksReplicator};

use crate::channel_rules::{Position, fault_of_end};
use crate::place_rules::{channel_at, differ, fault_of_target, target_at};
use crate::wanting::{Wanted, fault_of};
use occam_parser::{Expr, Place, Replicator};
use program_uses::{Direction, lower, place_ref, told_unless, value_as};
use scalar_ranges::{ExprType, OUT_OF_RANGE, Scope, type_of};

/// The lowest number of the rules that an assignment breaks.
pub(crate) fn fault_of_assignment(scope: &Scope, target: &Place, value: &Expr) -> Option<u8>
    ensures { IsLowest (BreaksAssignment (entries_of scope.now) (place_of target.now) (expression_of value.now))
        result }
{
    let place = place_ref(target);
    let typed = differ(target_at(scope, place), type_of(scope, value));
    lower(
        fault_of_target(scope, place),
        lower(fault_of(scope, Wanted::Anything, value), typed),
    )
}

/// The lowest number of the rules that an input breaks.
pub(crate) fn fault_of_input(
    position: Position,
    scope: &Scope,
    channel: &Place,
    target: &Place,
) -> Option<u8>
    ensures { IsLowest (BreaksInput position (entries_of scope.now) (place_of channel.now) (place_of target.now))
        result }
{
    let place = place_ref(target);
    let typed = differ(
        channel_at(scope, place_ref(channel)),
        target_at(scope, place),
    );
    lower(
        fault_of_end(position, scope, Direction::Input, channel),
        lower(fault_of_target(scope, place), typed),
    )
}

/// The lowest number of the rules that an output breaks.
pub(crate) fn fault_of_output(
    position: Position,
    scope: &Scope,
    channel: &Place,
    value: &Expr,
) -> Option<u8>
    ensures { IsLowest (BreaksOutput position (entries_of scope.now) (place_of channel.now) (expression_of value.now))
        result }
{
    let typed = differ(channel_at(scope, place_ref(channel)), type_of(scope, value));
    lower(
        fault_of_end(position, scope, Direction::Output, channel),
        lower(fault_of(scope, Wanted::Anything, value), typed),
    )
}

/// The lowest number of the rules that a condition breaks.
pub(crate) fn fault_of_condition(scope: &Scope, condition: &Expr) -> Option<u8>
    ensures { IsLowest (BreaksCondition (entries_of scope.now) (expression_of condition.now)) result }
{
    fault_of(scope, Wanted::Value(ExprType::Condition), condition)
}

/// Whether the last index of a replicator is a word, if its base is known.
fn fits_word(base: Option<i32>, count: i32) -> bool
    ensures { result ≡ fits_word base count }
{
    match base {
        None => true,
        Some(base) => i64::from(base) + i64::from(count) <= i64::from(i32::MAX) + 1,
    }
}

/// The number of a count that is known and is no count from the base on.
fn no_count(base: Option<i32>, count: Option<i32>) -> Option<u8>
    ensures { IsLowest (IsNoCount base count) result }
{
    let count = count?;
    let fits = fits_word(base, count);
    told_unless(0 <= count && fits, OUT_OF_RANGE)
}

/// The lowest number of the rules that a replicator breaks.
pub(crate) fn fault_of_replicator(scope: &Scope, replicator: &Replicator) -> Option<u8>
    ensures { IsLowest (BreaksReplicator (entries_of scope.now) (replicator_of replicator.now)) result }
{
    let base = value_as(scope, ExprType::Int, &replicator.base);
    let counted = no_count(base, value_as(scope, ExprType::Int, &replicator.count));
    let wanted = Wanted::Constant(ExprType::Int);
    lower(
        fault_of(scope, wanted, &replicator.base),
        lower(fault_of(scope, wanted, &replicator.count), counted),
    )
}
