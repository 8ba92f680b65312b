//! What is known of a count, and of a condition.

use occam_parser::Expr;
use program_uses::value_as;
use scalar_ranges::{ExprType, Scope};

/// A count under a replicator.
pub(crate) fn count_of(scope: &Scope, count: &Expr) -> u64 {
    match value_as(scope, ExprType::Int, count) {
        Some(count) => u64::from(count.max(0).unsigned_abs()),
        None => 0,
    }
}

/// Whether a condition is tested for sure: one that is known may be TRUE.
pub(crate) fn is_tested(scope: &Scope, condition: &Expr) -> bool {
    value_as(scope, ExprType::Condition, condition).is_none()
}
