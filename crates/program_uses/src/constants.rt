//! The values of expressions where a constant of one type is wanted.

ghost use Rattle.std.specs.Prelude.{◌≡◌};
ghost use Rattle.occam_parser.specs.Views.{expression_of};
ghost use Rattle.scalar_ranges.specs.Scopes.{entries_of};
ghost use Rattle.program_uses.specs.Constants.{has_type, value_as, from_one, size_in};

use occam_parser::Expr;
use scalar_ranges::{ExprType, Scope, read};

/// Whether a type was found, and it is this one.
pub fn has_type(wanted: ExprType, found: Result<ExprType, u8>) -> bool
    ensures { result ≡ has_type wanted found }
{
    match found {
        Ok(found) => found == wanted,
        Err(_) => false,
    }
}

/// The value of a constant expression of this type.
pub fn value_as(scope: &Scope, wanted: ExprType, expr: &Expr) -> Option<i32>
    ensures { result ≡ value_as (entries_of scope.now) wanted (expression_of expr.now) }
{
    let found = read(scope, expr);
    if has_type(wanted, found.expr_type) {
        found.value()
    } else {
        None
    }
}

/// A number from 1 on.
fn from_one(value: i32) -> Option<u32>
    ensures { result ≡ from_one value }
{
    if value < 1 {
        None
    } else {
        Some(value.unsigned_abs())
    }
}

/// How many elements an array has, if its size is a constant from 1 on.
pub fn size_in(scope: &Scope, size: &Expr) -> Option<u32>
    ensures { result ≡ size_in (entries_of scope.now) (expression_of size.now) }
{
    from_one(value_as(scope, ExprType::Int, size)?)
}
