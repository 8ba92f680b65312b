//! Why the smallest parts of an expression break a rule: names, types and subscripts.

ghost use Rattle.std.specs.Prelude.{◌≡◌, [], ◌∷◌, IfSome};
ghost use Rattle.occam_parser.specs.declared.tree.PairOperator.{PairOperator};
ghost use Rattle.occam_parser.specs.Terminals.{Name};
ghost use Rattle.occam_parser.specs.Expressions.{Element, Paired, written, written_term};
ghost use Rattle.occam_parser.specs.Views.{expression_of, term_of};
ghost use Rattle.scalar_ranges.specs.Scopes.{meaning_of};
ghost use Rattle.program_uses.specs.Constants.{is_same_type};
ghost use Rattle.usage_reasons.specs.Causes.{Breaks, IsCause, IsUnfit};
ghost use Rattle.usage_reasons.specs.Sites.{known_at};
ghost use Rattle.usage_reasons.specs.Sorts.{is_of_sort, is_constant, elements_in};

use crate::cause::{Found, Rule, meant, meant_if};
use crate::nearest::nearest;
use crate::reason::{Sort, Why};
use crate::site::Site;
use crate::tokens::{plus, width_of, width_of_operand};
use occam_parser::{Expr, Operand};
use scalar_ranges::{
    ArrayKind, ExprType, Meaning, ScalarKind, is_subscript, range_of, read_operand, type_of,
};

/// Whether what a name denotes is of this sort.
pub(crate) fn is_of_sort(sort: Sort, meaning: Meaning) -> bool
    ensures { result ≡ is_of_sort sort (meaning_of meaning) }
{
    match (sort, meaning) {
        (Sort::Scalar, Meaning::Constant { .. } | Meaning::Scalar { .. })
        | (Sort::Array, Meaning::Array { .. })
        | (
            Sort::Variable,
            Meaning::Scalar {
                kind: ScalarKind::Variable | ScalarKind::Reference,
                ..
            },
        )
        | (
            Sort::VariableArray,
            Meaning::Array {
                kind: ArrayKind::Variable,
                ..
            },
        )
        | (Sort::Channel, Meaning::Channel { .. })
        | (Sort::ChannelArray, Meaning::Channels { .. })
        | (Sort::Procedure, Meaning::Proc(_)) => true,
        _ => false,
    }
}

/// Whether a name that denotes this is a constant operand.
pub(crate) fn is_constant(meaning: Meaning) -> bool
    ensures { result ≡ is_constant (meaning_of meaning) }
{
    match meaning {
        Meaning::Constant { .. } => true,
        _ => false,
    }
}

/// How many elements what a name denotes has, if it is an array of which that is known.
pub(crate) fn elements_in(meaning: Meaning) -> Option<u32>
    ensures { result ≡ elements_in (meaning_of meaning) }
{
    match meaning {
        Meaning::Array { size, .. } | Meaning::Channels { size, .. } => size,
        _ => None,
    }
}

/// Whether two types are the same.
pub(crate) fn is_same(first: ExprType, second: ExprType) -> bool
    ensures { result ≡ is_same_type first second }
{
    first == second
}

/// Why what has this type is not what is wanted: something of another type, or any number where no type is given.
#[tactic(auto, using(crate::proofs::Causes::types_unfit))]
fn why_unfit<'a>(found: Result<ExprType, u8>, wanted: Option<ExprType>) -> Option<Why<'a>>
    ensures { IfSome result (IsUnfit found) }
{
    match (found, wanted) {
        (Ok(found), Some(wanted)) if !is_same(found, wanted) => {
            Some(Why::OtherType { found, wanted })
        }
        (Ok(ExprType::Condition), None) => Some(Why::NoNumber),
        _ => None,
    }
}

impl<'a> Site<'_, 'a> {
    /// Why a name that has to be of this sort breaks the rule.
    #[tactic(auto, using(crate::proofs::Causes::names_break))]
    fn name_breaks(&self, sort: Sort, name: &[u8]) -> Option<Why<'a>>
        ensures { IfSome result (Breaks (known_at self.now) (Name name.now ∷ [])) }
    {
        match (self.rule, self.scope.meaning(name)) {
            (Rule::Names, None) => Some(Why::UnknownName {
                nearest: nearest(self.scope, name),
            }),
            (Rule::Types, Some(meaning)) if !is_of_sort(sort, meaning) => {
                Some(Why::OtherSort { wanted: sort })
            }
            (Rule::Constants, Some(meaning)) if !is_constant(meaning) => Some(Why::NoConstant),
            _ => None,
        }
    }

    /// A name that breaks the rule, where one of this sort is wanted.
    #[tactic(auto, using(crate::proofs::Places::itself_if))]
    pub(crate) fn in_name(&self, sort: Sort, at: usize, name: &[u8]) -> Found<'a>
        ensures { IfSome result (IsCause (known_at self.now) (Name name.now ∷ []) at) }
    {
        meant_if(at, 1, self.name_breaks(sort, name))
    }

    /// O11: an operand that has another type than this one, or that is no number if no type is given.
    #[tactic(auto, using(crate::proofs::Causes::unfit_operand))]
    pub(crate) fn unfit(&self, at: usize, operand: &Operand, wanted: Option<ExprType>) -> Found<'a>
        ensures { IfSome result (IsCause (known_at self.now) (written_term (term_of operand.now)) at) }
    {
        if self.rule != Rule::Types {
            return None;
        }
        let found = read_operand(self.scope, operand).expr_type;
        meant_if(at, width_of_operand(operand), why_unfit(found, wanted))
    }

    /// An expression that has another type than this one.
    #[tactic(auto, using(crate::proofs::Causes::unfit_expression))]
    pub(crate) fn other_expression(&self, at: usize, expr: &Expr, wanted: ExprType) -> Found<'a>
        ensures { IfSome result (IsCause (known_at self.now) (written (expression_of expr.now)) at) }
    {
        let why = why_unfit(type_of(self.scope, expr), Some(wanted));
        meant_if(at, width_of(expr), why)
    }

    /// Two operands of different types, with what is between them, which is this expression.
    #[tactic(auto, using(crate::proofs::Causes::other_types))]
    pub(crate) fn other_types(
        &self,
        at: usize,
        expr: &Expr,
        left: &Operand,
        right: &Operand,
    ) -> Found<'a>
        requires { (op : PairOperator) × (expression_of expr.now ≡ Paired op (term_of left.now) (term_of right.now)) }
        ensures { IfSome result (IsCause (known_at self.now) (written (expression_of expr.now)) at) }
    {
        match (
            read_operand(self.scope, left).expr_type,
            read_operand(self.scope, right).expr_type,
        ) {
            (Ok(left), Ok(right)) if !is_same(left, right) => {
                Some(meant(at, width_of(expr), Why::OtherTypes { left, right }))
            }
            _ => None,
        }
    }

    /// Why a subscript of what has this name may be outside of it.
    #[tactic(auto, using(crate::proofs::Causes::subscripts_fail))]
    fn outside(&self, name: &[u8], subscript: &Expr) -> Option<Why<'a>>
        ensures { IfSome result (Breaks (known_at self.now) (written (expression_of subscript.now))) }
    {
        let size = elements_in(self.scope.meaning(name)?)?;
        match range_of(self.scope, subscript) {
            Ok(subscript) if !is_subscript(size, subscript) => {
                Some(Why::Outside { size, subscript })
            }
            _ => None,
        }
    }

    /// A subscript of what has this name that breaks the rule, if no part of it breaks it.
    #[tactic(auto, using(crate::proofs::Places::itself_if))]
    pub(crate) fn no_subscript(&self, at: usize, name: &[u8], subscript: &Expr) -> Found<'a>
        ensures { IfSome result (IsCause (known_at self.now) (written (expression_of subscript.now)) at) }
    {
        match self.rule {
            Rule::Types => self.other_expression(at, subscript, ExprType::Int),
            Rule::Subscripts => meant_if(at, width_of(subscript), self.outside(name, subscript)),
            _ => None,
        }
    }

    /// An element that breaks the rule by its name alone.
    #[tactic(auto, using(crate::proofs::Places::on_left))]
    pub(crate) fn in_element(&self, at: usize, name: &[u8], subscript: &Expr) -> Found<'a>
        ensures { IfSome result (IsCause (known_at self.now)
            (written_term (Element name.now (expression_of subscript.now))) at) }
    {
        if self.rule == Rule::Constants {
            let len = plus(3, width_of(subscript));
            return Some(meant(at, len, Why::NoConstant));
        }
        self.in_name(Sort::Array, at, name)
    }
}
