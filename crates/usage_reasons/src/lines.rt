//! The part of a line that breaks a rule of expressions.
#![tactic(auto, using(crate::proofs::Parts::of_cause_if, crate::proofs::Parts::first_of))]

ghost use Rattle.std.specs.Prelude.{◌≡◌, IfSome};
ghost use Rattle.scalar_ranges.specs.Entries.{meaning_in};
ghost use Rattle.usage_reasons.specs.AtFault.{IsAtFault};
ghost use Rattle.usage_reasons.specs.Causes.{Explains};
ghost use Rattle.usage_reasons.specs.Sites.{known_at};
ghost use Rattle.usage_reasons.specs.Sorts.{carried};

use crate::cause::{Found, Rule, meant};
use crate::reason::{Sort, Tokens, Why};
use crate::site::Site;
use crate::small_parts::is_same;
use crate::tokens::{plus, plus_between, width_of, width_of_place};
use occam_parser::{Expr, Place, Replicator};
use program_uses::{PlaceRef, place_ref, value_as};
use scalar_ranges::{ExprType, Meaning, type_of, type_of_values};
use usage_checks::Wanted;

/// Where the base of a replicator begins.
const BASE: usize = 3;

/// What a place has to be: the sort of its name alone and with a subscript, and what is wanted of that.
pub(crate) type Role = (Sort, Sort, Wanted);

/// What something is assigned to or received into.
pub(crate) const TARGET: Role = (
    Sort::Variable,
    Sort::VariableArray,
    Wanted::Value(ExprType::Int),
);

/// What is received from or sent to.
pub(crate) const CHANNEL: Role = (
    Sort::Channel,
    Sort::ChannelArray,
    Wanted::Constant(ExprType::Int),
);

impl<'a> Site<'_, 'a> {
    /// The part of an expression that breaks the rule where this is wanted.
    pub(crate) fn in_wanted(&self, at: usize, wanted: Wanted, expr: &Expr) -> Found<'a>
        ensures { IfSome result (Explains (known_at self.now)) }
    {
        match (self.rule, wanted) {
            (Rule::Constants, Wanted::Anything | Wanted::Value(_)) => None,
            (Rule::Types, Wanted::Value(wanted) | Wanted::Constant(wanted)) => {
                let inner = self.in_expression(at, expr);
                inner.or(self.other_expression(at, expr, wanted))
            }
            _ => self.in_expression(at, expr),
        }
    }

    /// The part of the subscript of a place that breaks the rule, if there is one. The place begins at this token.
    pub(crate) fn in_subscript(&self, at: usize, wanted: Wanted, place: PlaceRef) -> Found<'a>
        ensures { IfSome result (Explains (known_at self.now)) }
    {
        let subscript = place.subscript?;
        let at = plus(at, 2);
        let inner = self.in_wanted(at, wanted, subscript);
        inner.or(self.no_subscript(at, place.name, subscript))
    }

    /// The part of a place that breaks the rule, which has to be this.
    fn in_place(&self, at: usize, role: Role, place: &Place) -> Found<'a>
        ensures { IfSome result (Explains (known_at self.now)) }
    {
        let (whole, element, wanted) = role;
        let sort = if place.subscript.is_some() {
            element
        } else {
            whole
        };
        let inner = self.in_subscript(at, wanted, place_ref(place));
        if self.rule == Rule::Constants {
            return inner;
        }
        self.in_name(sort, at, place.name).or(inner)
    }

    /// The type of a variable, of the elements of an array, or of what a channel carries, which has this name.
    fn carried_by(&self, name: &[u8]) -> Option<ExprType>
        ensures { result ≡ carried (meaning_in name.now (known_at self.now)) }
    {
        match self.scope.meaning(name)? {
            Meaning::Constant { value_type, .. }
            | Meaning::Scalar { value_type, .. }
            | Meaning::Array { value_type, .. }
            | Meaning::Channel { value_type }
            | Meaning::Channels { value_type, .. } => Some(type_of_values(value_type)),
            Meaning::Proc(_) => None,
        }
    }

    /// A value of another type than the place that it goes to, which is the first of the line.
    #[tactic(auto, using(crate::proofs::Parts::value_broken))]
    fn other_value(&self, place: &Place, value: &Expr) -> Found<'a>
        ensures { IfSome result (Explains (known_at self.now)) }
    {
        if self.rule != Rule::Types {
            return None;
        }
        let Ok(found) = type_of(self.scope, value) else {
            return None;
        };
        let wanted = self.carried_by(place.name)?;
        if is_same(found, wanted) {
            return None;
        }
        let len = width_of_place(place);
        let place = Tokens { at: 0, len };
        let why = Why::OtherPlaceType {
            found,
            wanted,
            place,
        };
        Some(meant(plus(len, 1), width_of(value), why))
    }

    /// A variable of another type than the channel from which it is received, whose tokens these are. The variable begins
    /// at this token.
    fn other_target(&self, at: usize, channel: &[u8], place: Tokens, target: &Place) -> Found<'a>
        ensures { IfSome result (Explains (known_at self.now)) }
    {
        if self.rule != Rule::Types {
            return None;
        }
        let found = self.carried_by(target.name)?;
        let wanted = self.carried_by(channel)?;
        if is_same(found, wanted) {
            return None;
        }
        let why = Why::OtherPlaceType {
            found,
            wanted,
            place,
        };
        Some(meant(at, width_of_place(target), why))
    }

    /// The part of an assignment or an output that breaks the rule, whose place has to be this.
    pub(crate) fn in_given(&self, role: Role, place: &Place, value: &Expr) -> Found<'a>
        ensures { IfSome result (Explains (known_at self.now)) }
    {
        let next = plus(width_of_place(place), 1);
        let left = self.in_place(0, role, place);
        let sides = left.or(self.in_wanted(next, Wanted::Anything, value));
        sides.or(self.other_value(place, value))
    }

    /// The part of an input that breaks the rule, which begins at this token.
    pub(crate) fn in_received(&self, at: usize, channel: &Place, target: &Place) -> Found<'a>
        ensures { IfSome result (Explains (known_at self.now)) }
    {
        let len = width_of_place(channel);
        let next = plus_between(at, len);
        let from = self.in_place(at, CHANNEL, channel);
        let sides = from.or(self.in_place(next, TARGET, target));
        sides.or(self.other_target(next, channel.name, Tokens { at, len }, target))
    }

    /// A count that is below 0.
    #[tactic(auto, using(crate::proofs::Parts::count_broken))]
    fn count_below_zero(&self, at: usize, expr: &Expr) -> Found<'a>
        ensures { IfSome result (Explains (known_at self.now)) }
    {
        if self.rule != Rule::Ranges {
            return None;
        }
        let count = value_as(self.scope, ExprType::Int, expr)?;
        if 0 <= count {
            return None;
        }
        Some(meant(at, width_of(expr), Why::CountBelowZero { count }))
    }

    /// A base and a count whose last index is beyond the greatest INT.
    #[tactic(auto, using(crate::specs::AtFault::left_out))]
    fn last_index(&self, replicator: &Replicator) -> Found<'a>
        ensures { IfSome result IsAtFault }
    {
        if self.rule != Rule::Ranges {
            return None;
        }
        let base = value_as(self.scope, ExprType::Int, &replicator.base)?;
        let count = value_as(self.scope, ExprType::Int, &replicator.count)?;
        if i64::from(base) + i64::from(count) <= i64::from(i32::MAX) + 1 {
            return None;
        }
        let len = plus_between(width_of(&replicator.base), width_of(&replicator.count));
        Some(meant(BASE, len, Why::LastIndex { base, count }))
    }

    /// The part of the head of a replicated block that breaks the rule.
    pub(crate) fn in_replicator(&self, replicator: &Replicator) -> Found<'a>
        ensures { IfSome result IsAtFault }
    {
        let wanted = Wanted::Constant(ExprType::Int);
        let next = plus_between(BASE, width_of(&replicator.base));
        let base = self.in_wanted(BASE, wanted, &replicator.base);
        let inner = base.or(self.in_wanted(next, wanted, &replicator.count));
        let below = self.count_below_zero(next, &replicator.count);
        inner.or(below).or(self.last_index(replicator))
    }
}
