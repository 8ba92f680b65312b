//! The part of a declaration or of the head of a procedure that breaks a rule.
#![tactic(auto, using(crate::proofs::Parts::first_of))]

ghost use Rattle.std.specs.Prelude.{◌≡◌, false, Some, IfSome, map, nat_eq, sum_by};
ghost use Rattle.occam_parser.specs.Views.{expression_of};
ghost use Rattle.program_uses.specs.Constants.{size_in};
ghost use Rattle.usage_reasons.specs.Causes.{Explains};
ghost use Rattle.usage_reasons.specs.Sites.{known_at};
ghost use Rattle.usage_reasons.specs.Tokens.{capped, tokens_of_item};

use crate::cause::{Found, Rule, meant};
use crate::reason::Why;
use crate::site::Site;
use crate::tokens::{plus, plus_between, width_in_brackets, width_of};
use occam_layout::Text;
use occam_parser::{Constant, ConstantValue, Expr, Formal, FormalKind, OneOrMore, ValueType};
use program_uses::{size_in, value_as};
use scalar_ranges::{ExprType, type_of_values};
use usage_checks::Wanted;

/// How many tokens the further items of a table are, each with its comma.
fn width_of_others(items: &[Expr]) -> usize
    ensures { result ≡ capped (sum_by tokens_of_item (map expression_of items.now)) }
{
    let mut width = 0;
    for item in items {
        width = plus_between(width, width_of(item));
    }
    width
}

/// How many tokens of a formal are before its size, and how many after it.
fn width_around(kind: FormalKind) -> (usize, usize) {
    match kind {
        FormalKind::Value => (1, 2),
        FormalKind::Variable => (0, 2),
        FormalKind::Channel => (0, 4),
    }
}

/// How many tokens a formal is.
pub(crate) fn width_of_formal(formal: &Formal) -> usize {
    let (before, after) = width_around(formal.kind);
    plus(before, plus(width_in_brackets(&formal.size), after))
}

impl<'a> Site<'_, 'a> {
    /// A size that is below 1.
    #[tactic(auto, using(crate::proofs::Parts::size_broken))]
    fn size_below_one(&self, at: usize, expr: &Expr) -> Found<'a>
        ensures { IfSome result (Explains (known_at self.now)) }
    {
        if self.rule != Rule::Ranges {
            return None;
        }
        let size = value_as(self.scope, ExprType::Int, expr)?;
        if 1 <= size {
            return None;
        }
        Some(meant(at, width_of(expr), Why::SizeBelowOne { size }))
    }

    /// The part of the size of an array that breaks the rule. The bracket before it is at this token.
    fn in_size(&self, at: usize, size: &Expr) -> Found<'a>
        ensures { IfSome result (Explains (known_at self.now)) }
    {
        let at = plus(at, 1);
        let inner = self.in_wanted(at, Wanted::Constant(ExprType::Int), size);
        inner.or(self.size_below_one(at, size))
    }

    /// The part of a size that breaks the rule, if there is one.
    pub(crate) fn in_any_size(&self, at: usize, size: &Option<Expr>) -> Found<'a>
        ensures { IfSome result (Explains (known_at self.now)) }
    {
        match size {
            None => None,
            Some(size) => self.in_size(at, size),
        }
    }

    /// The part of the items of a table that breaks the rule.
    fn in_items(&self, at: usize, value_type: ValueType, items: &OneOrMore<Expr>) -> Found<'a>
        ensures { IfSome result (Explains (known_at self.now)) }
    {
        let wanted = Wanted::Constant(type_of_values(value_type));
        if let Some(cause) = self.in_wanted(at, wanted, &items.first) {
            return Some(cause);
        }
        let mut next = plus_between(at, width_of(&items.first));
        for item in &items.others {
            if let Some(cause) = self.in_wanted(next, wanted, item) {
                return Some(cause);
            }
            next = plus_between(next, width_of(item));
        }
        None
    }

    /// The size that is stated of a table or of a text, if it has another number of items.
    fn other_size(&self, size: &Expr, items: usize) -> Option<u32>
        ensures { IfSome result (λ stated. (size_in (known_at self.now) (expression_of size.now) ≡ Some stated)
            × (nat_eq stated items ≡ false)) }
    {
        let stated = size_in(self.scope, size)?;
        if stated as usize == items {
            return None;
        }
        Some(stated)
    }

    /// A table whose size says another number of items, whose bracket is at this token.
    #[tactic(auto, using(crate::proofs::Parts::table_broken))]
    fn other_table(&self, at: usize, size: &Expr, table: &OneOrMore<Expr>) -> Found<'a>
        ensures { IfSome result (Explains (known_at self.now)) }
    {
        if self.rule != Rule::Types {
            return None;
        }
        let items = 1 + table.others.len();
        let stated = self.other_size(size, items)?;
        let first = width_of(&table.first);
        let len = plus(2, plus(first, width_of_others(&table.others)));
        Some(meant(at, len, Why::OtherItems { stated, items }))
    }

    /// A text that is no table of its size, which is this token.
    #[tactic(auto, using(crate::proofs::Parts::text_broken, crate::proofs::Parts::ints_broken))]
    fn no_text(&self, at: usize, value_type: ValueType, size: &Expr, text: Text) -> Found<'a>
        ensures { IfSome result (Explains (known_at self.now)) }
    {
        if self.rule != Rule::Types {
            return None;
        }
        match value_type {
            ValueType::Int => Some(meant(at, 1, Why::TextOfInts)),
            ValueType::Byte => {
                let items = text.len();
                let stated = self.other_size(size, items)?;
                Some(meant(at, 1, Why::OtherItems { stated, items }))
            }
        }
    }

    /// The part of the line of a constant that breaks the rule.
    pub(crate) fn in_constant(&self, constant: &Constant) -> Found<'a>
        ensures { IfSome result (Explains (known_at self.now)) }
    {
        let value_type = constant.value_type;
        match &constant.value {
            ConstantValue::Scalar(value) => {
                self.in_wanted(4, Wanted::Constant(type_of_values(value_type)), value)
            }
            ConstantValue::Table { size, items } => {
                let at = plus(6, width_of(size));
                let inner = self.in_items(plus(at, 1), value_type, items);
                self.in_size(1, size)
                    .or(inner.or(self.other_table(at, size, items)))
            }
            ConstantValue::Text { size, text } => {
                let at = plus(6, width_of(size));
                self.in_size(1, size)
                    .or(self.no_text(at, value_type, size, *text))
            }
        }
    }

    /// The part of the head of a procedure that breaks the rule, but for its names.
    pub(crate) fn in_formals(&self, formals: &[Formal]) -> Found<'a>
        ensures { IfSome result (Explains (known_at self.now)) }
    {
        let mut at = 3;
        for formal in formals {
            let (before, _) = width_around(formal.kind);
            if let Some(cause) = self.in_any_size(plus(at, before), &formal.size) {
                return Some(cause);
            }
            at = plus_between(at, width_of_formal(formal));
        }
        None
    }
}
