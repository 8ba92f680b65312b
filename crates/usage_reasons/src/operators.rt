//! Why an operator or a conversion breaks a rule, whose operands break none.

ghost use Rattle.std.specs.Prelude.{◌≡◌, List, Ok, map, IfSome};
ghost use Rattle.word_arithmetic.specs.Range.{ends_of};
ghost use Rattle.occam_parser.specs.Expressions.{Expression, Converted, Two, written, written_term};
ghost use Rattle.occam_parser.specs.Views.{expression_of, term_of, with_others};
ghost use Rattle.scalar_ranges.specs.Entries.{Entry};
ghost use Rattle.scalar_ranges.specs.Bounds.{bound_of_term, range_found};
ghost use Rattle.usage_reasons.specs.Causes.{AreJoined, AreOperands, Breaks, Fails};
ghost use Rattle.usage_reasons.specs.Sites.{known_at};

use crate::reason::{Operator, Results, Why};
use crate::site::Site;
use occam_parser::{
    ArithmeticChain, ArithmeticPair, ChainOperator, Expr, Operand, Operation, PairOperator,
    ValueType,
};
use scalar_ranges::{OUT_OF_RANGE, read, read_operand, type_range};
use word_arithmetic::{Binary, Range};

/// Where two operands lie. The left one is 0 if there is no such operand.
#[derive(Clone, Copy)]
struct Ranges {
    left: Range,
    right: Range,
}

/// The product of two words.
fn product(left: i32, right: i32) -> i64 {
    i64::from(left).wrapping_mul(i64::from(right))
}

/// Where the results of an operator lie that may overflow.
fn results_of(operator: Operator, left: Range, right: Range) -> Results {
    match operator {
        Operator::Negate | Operator::Pair(_) => Results {
            lo: i64::from(left.lo) - i64::from(right.hi),
            hi: i64::from(left.hi) - i64::from(right.lo),
        },
        Operator::Chain(ArithmeticChain::Multiply) => products(left, right),
        Operator::Chain(_) => Results {
            lo: i64::from(left.lo) + i64::from(right.lo),
            hi: i64::from(left.hi) + i64::from(right.hi),
        },
    }
}

/// Where the products of two ranges lie.
fn products(left: Range, right: Range) -> Results {
    let (low, mixed) = (product(left.lo, right.lo), product(left.lo, right.hi));
    let (other, high) = (product(left.hi, right.lo), product(left.hi, right.hi));
    Results {
        lo: low.min(mixed).min(other.min(high)),
        hi: low.max(mixed).max(other.max(high)),
    }
}

/// Why an operator fails whose operands lie there.
#[tactic(auto, using(crate::proofs::Causes::operators_fail))]
fn failing<'a>(operator: Operator, ranges: Ranges) -> Why<'a>
    ensures { (es : List Entry) (e : Expression) → Fails es e ranges.left ranges.right → Breaks es (written e) result }
{
    let Ranges { left, right } = ranges;
    match operator {
        Operator::Pair(operator @ (ArithmeticPair::Divide | ArithmeticPair::Remainder)) => {
            Why::Division {
                operator,
                dividend: left,
                divisor: right,
            }
        }
        Operator::Pair(ArithmeticPair::ShiftLeft | ArithmeticPair::ShiftRight) => {
            Why::ShiftCount { count: right }
        }
        _ => Why::Overflow {
            operator,
            left,
            right,
            results: results_of(operator, left, right),
        },
    }
}

/// What the operands of a chain have come to, if it does not fail there.
fn joined(operator: ArithmeticChain, ranges: Ranges) -> Option<Range> {
    match operator {
        ArithmeticChain::Add => Binary::Add.range(ranges.left, ranges.right),
        ArithmeticChain::Multiply => Binary::Multiply.range(ranges.left, ranges.right),
        _ => None,
    }
}

impl<'a> Site<'_, 'a> {
    /// Why a conversion of an operand to this type fails.
    #[tactic(auto, using(crate::proofs::Causes::operators_fail))]
    pub(crate) fn conversion_fails(&self, to: ValueType, operand: &Operand) -> Option<Why<'a>>
        ensures { IfSome result (Breaks (known_at self.now) (written_term (Converted to (term_of operand.now)))) }
    {
        let Ok(operand) = read_operand(self.scope, operand).range() else {
            return None;
        };
        if operand.fits_within(type_range(to)) {
            return None;
        }
        Some(Why::Conversion { to, operand })
    }

    /// Where two operands lie, if both have a range.
    fn ranges_of(&self, left: &Operand, right: &Operand) -> Option<Ranges>
        ensures { IfSome result (λ r.
            (range_found (bound_of_term (known_at self.now) (term_of left.now)) ≡ Ok (ends_of r.left))
            × (range_found (bound_of_term (known_at self.now) (term_of right.now)) ≡ Ok (ends_of r.right))) }
    {
        match (
            read_operand(self.scope, left).range(),
            read_operand(self.scope, right).range(),
        ) {
            (Ok(left), Ok(right)) => Some(Ranges { left, right }),
            _ => None,
        }
    }

    /// Where the operands lie at which a chain fails: of more than two, what the operands before one have come to, and
    /// that one.
    #[tactic(auto, using(crate::proofs::Causes::joined_first))]
    fn chain_ranges(
        &self,
        operator: ArithmeticChain,
        first: &Operand,
        second: &Operand,
        others: &[Operand],
    ) -> Option<Ranges>
        ensures { IfSome result (λ r. AreJoined (known_at self.now)
            (with_others (Two (term_of first.now) (term_of second.now)) (map term_of others.now)) r.left r.right) }
    {
        let mut ranges = self.ranges_of(first, second)?;
        for other in others {
            match (
                joined(operator, ranges),
                read_operand(self.scope, other).range(),
            ) {
                (Some(left), Ok(right)) => ranges = Ranges { left, right },
                _ => return Some(ranges),
            }
        }
        Some(ranges)
    }

    /// The operator of an expression that may fail, and where its operands lie.
    fn operands(&self, expr: &Expr) -> Option<(Operator, Ranges)>
        ensures { IfSome result (λ found.
            AreOperands (known_at self.now) (expression_of expr.now) found.1.left found.1.right) }
    {
        match &*expr.operation {
            Operation::Prefix { operand, .. } => {
                let Ok(right) = read_operand(self.scope, operand).range() else {
                    return None;
                };
                let left = Range::constant(0);
                Some((Operator::Negate, Ranges { left, right }))
            }
            Operation::Pair {
                operator: PairOperator::Arithmetic(operator),
                left,
                right,
            } => Some((Operator::Pair(*operator), self.ranges_of(left, right)?)),
            Operation::Chain {
                operator: ChainOperator::Arithmetic(operator),
                first,
                second,
                others,
            } => {
                let ranges = self.chain_ranges(*operator, first, second, others)?;
                Some((Operator::Chain(*operator), ranges))
            }
            _ => None,
        }
    }

    /// Why the operator of an expression fails.
    #[tactic(auto, using(crate::proofs::Causes::operators_fail))]
    pub(crate) fn operator_fails(&self, expr: &Expr) -> Option<Why<'a>>
        ensures { IfSome result (Breaks (known_at self.now) (written (expression_of expr.now))) }
    {
        let (operator, ranges) = self.operands(expr)?;
        match read(self.scope, expr).range() {
            Err(number) if number == OUT_OF_RANGE => Some(failing(operator, ranges)),
            _ => None,
        }
    }
}
