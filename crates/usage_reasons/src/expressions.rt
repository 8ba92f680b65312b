//! The part of an expression that breaks a rule: the innermost one, and of several the first.

ghost use Rattle.std.specs.Prelude.{map, IfSome};
ghost use Rattle.occam_parser.specs.Expressions.{Converted, written, written_term};
ghost use Rattle.occam_parser.specs.Views.{expression_of, term_of};
ghost use Rattle.usage_reasons.specs.Causes.{IsCause};
ghost use Rattle.usage_reasons.specs.Chains.{written_others};
ghost use Rattle.usage_reasons.specs.Sites.{known_at};

use crate::cause::{Found, Rule, meant_if};
use crate::reason::Sort;
use crate::site::Site;
use crate::tokens::{plus, plus_between, width_of, width_of_operand};
use occam_parser::{
    ChainOperator, Expr, Operand, Operation, PairOperator, PrefixOperator, ValueType,
};
use scalar_ranges::ExprType;

/// The type of the operands that an operator joins.
fn operand_type(operator: ChainOperator) -> ExprType {
    match operator {
        ChainOperator::Arithmetic(_) => ExprType::Int,
        ChainOperator::Logic(_) => ExprType::Condition,
    }
}

/// The type of the operand that follows an operator.
fn prefixed_type(operator: PrefixOperator) -> ExprType {
    match operator {
        PrefixOperator::Negate | PrefixOperator::BitNot => ExprType::Int,
        PrefixOperator::Not => ExprType::Condition,
    }
}

/// The type of two operands with this between them; none where any number is compared.
fn paired_type(operator: PairOperator) -> Option<ExprType> {
    match operator {
        PairOperator::Arithmetic(_) => Some(ExprType::Int),
        PairOperator::Comparison(_) => None,
    }
}

impl<'a> Site<'_, 'a> {
    /// Operands of other types than their operator takes, if they alone break no rule. Of a chain each is looked at before.
    fn in_typed(&self, at: usize, expr: &Expr) -> Found<'a>
        ensures { IfSome result (IsCause (known_at self.now) (written (expression_of expr.now)) at) }
    {
        match &*expr.operation {
            Operation::Operand(_) | Operation::Chain { .. } => None,
            Operation::Prefix { operator, operand } => {
                self.unfit(plus(at, 1), operand, Some(prefixed_type(*operator)))
            }
            Operation::Pair {
                operator,
                left,
                right,
            } => {
                let wanted = paired_type(*operator);
                let next = plus_between(at, width_of_operand(left));
                let side = self.unfit(at, left, wanted);
                let side = side.or(self.unfit(next, right, wanted));
                side.or(self.other_types(at, expr, left, right))
            }
        }
    }

    /// A conversion that breaks the rule, if its operand does not.
    #[tactic(auto, using(crate::proofs::Places::itself_if, crate::proofs::Places::after_one))]
    fn in_converted(&self, at: usize, to: ValueType, operand: &Operand) -> Found<'a>
        ensures { IfSome result (IsCause (known_at self.now) (written_term (Converted to (term_of operand.now))) at) }
    {
        match self.rule {
            Rule::Types => self.unfit(plus(at, 1), operand, None),
            Rule::Ranges => {
                let len = plus(1, width_of_operand(operand));
                meant_if(at, len, self.conversion_fails(to, operand))
            }
            _ => None,
        }
    }

    /// An expression that breaks the rule, if its operands alone do not.
    #[tactic(auto, using(crate::proofs::Places::itself_if))]
    fn in_whole(&self, at: usize, expr: &Expr) -> Found<'a>
        ensures { IfSome result (IsCause (known_at self.now) (written (expression_of expr.now)) at) }
    {
        match self.rule {
            Rule::Types => self.in_typed(at, expr),
            Rule::Ranges => meant_if(at, width_of(expr), self.operator_fails(expr)),
            _ => None,
        }
    }

    /// The part of an expression that breaks the rule.
    #[cycle(search)]
    pub(crate) fn in_expression(&self, at: usize, expr: &Expr) -> Found<'a>
        ensures { IfSome result (IsCause (known_at self.now) (written (expression_of expr.now)) at) }
    {
        self.in_operands(at, expr).or(self.in_whole(at, expr))
    }

    /// The part of an operand of an expression that breaks the rule.
    #[cycle(search)]
    fn in_operands(&self, at: usize, expr: &Expr) -> Found<'a>
        ensures { IfSome result (IsCause (known_at self.now) (written (expression_of expr.now)) at) }
    {
        match &*expr.operation {
            Operation::Operand(operand) => self.in_operand(at, operand),
            Operation::Prefix { operand, .. } => self.in_operand(plus(at, 1), operand),
            Operation::Pair { left, right, .. } => {
                let next = plus_between(at, width_of_operand(left));
                self.in_operand(at, left).or(self.in_operand(next, right))
            }
            Operation::Chain {
                operator,
                first,
                second,
                others,
            } => {
                let next = plus_between(at, width_of_operand(first));
                let after = plus(next, width_of_operand(second));
                let begun = self.in_joined(at, *operator, first);
                let two = begun.or(self.in_joined(next, *operator, second));
                two.or(self.in_others(after, *operator, others))
            }
        }
    }

    /// The part of one of the further operands of a chain that breaks the rule.
    #[cycle(search)]
    fn in_others(&self, at: usize, operator: ChainOperator, others: &[Operand]) -> Found<'a>
        ensures { IfSome result (IsCause (known_at self.now) (written_others operator (map term_of others.now)) at) }
    {
        let mut next = at;
        for other in others {
            if let Some(cause) = self.in_joined(plus(next, 1), operator, other) {
                return Some(cause);
            }
            next = plus_between(next, width_of_operand(other));
        }
        None
    }

    /// The part of an operand that breaks the rule, where an operator joins it to others.
    #[cycle(search)]
    fn in_joined(&self, at: usize, operator: ChainOperator, operand: &Operand) -> Found<'a>
        ensures { IfSome result (IsCause (known_at self.now) (written_term (term_of operand.now)) at) }
    {
        let wanted = Some(operand_type(operator));
        self.in_operand(at, operand)
            .or(self.unfit(at, operand, wanted))
    }

    /// The part of an operand that breaks the rule.
    #[cycle(search)]
    fn in_operand(&self, at: usize, operand: &Operand) -> Found<'a>
        ensures { IfSome result (IsCause (known_at self.now) (written_term (term_of operand.now)) at) }
    {
        match operand {
            Operand::Integer(_)
            | Operand::Character(_)
            | Operand::Truth(_)
            | Operand::MostPos
            | Operand::MostNeg => None,
            Operand::Name(name) => self.in_name(Sort::Scalar, at, name),
            Operand::Element { name, subscript } => {
                let next = plus(at, 2);
                let inner = self.in_expression(next, subscript);
                let inner = inner.or(self.no_subscript(next, name, subscript));
                self.in_element(at, name, subscript).or(inner)
            }
            Operand::Bracketed(inner) => self.in_expression(plus(at, 1), inner),
            Operand::Converted { to, operand } => {
                let inner = self.in_operand(plus(at, 1), operand);
                inner.or(self.in_converted(at, *to, operand))
            }
        }
    }
}
