//! The values and ranges of expressions.

ghost use Rattle.std.specs.Prelude.{◌≡◌};
ghost use Rattle.occam_parser.specs.Views.{expression_of};
ghost use Rattle.scalar_ranges.specs.Bounds.{bound_of, exact_value, range_found};
ghost use Rattle.scalar_ranges.specs.BoundViews.{all_ends};
ghost use Rattle.scalar_ranges.specs.Scopes.{entries_of};

use crate::reading::read;
use crate::scope::Scope;
use occam_parser::Expr;
use word_arithmetic::Range;

/// The value of a constant expression; `None` if the expression is no constant or has no value.
pub fn value_of(scope: &Scope, expr: &Expr) -> Option<i32>
    ensures { result ≡ exact_value (bound_of (entries_of scope.now) (expression_of expr.now)) }
{
    read(scope, expr).value()
}

/// Where the value of an expression lies; for a condition, the range of the truth values. The error is that of
/// [`Reading::range`](crate::Reading::range).
pub fn range_of(scope: &Scope, expr: &Expr) -> Result<Range, u8>
    ensures { all_ends result ≡ range_found (bound_of (entries_of scope.now) (expression_of expr.now)) }
{
    read(scope, expr).range()
}
