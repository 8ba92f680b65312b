//! The code of expressions: it pushes the value. Of the registers it keeps at most A, below the value, if it is small.

ghost use Rattle.std.specs.Prelude.{◌≡◌, ◌++◌, ◌∷◌, [], IfOk, ◌+◌, ◌&&◌, suc, map, option_map, unsigned_abs};
ghost use Rattle.prefix_decoder.specs.declared.function.Fun.TheVariants as fun;
ghost use Rattle.occam_parser.specs.Views.{expression_of, term_of};
ghost use Rattle.scalar_ranges.specs.Scopes.{entries_of, meaning_of};
ghost use Rattle.scalar_ranges.specs.Bounds.{bound_of, bound_of_term, exact_value, range_found};
ghost use Rattle.scalar_ranges.specs.BoundViews.{all_ends};
ghost use Rattle.code_pieces.specs.Pieces.{Direct};
ghost use Rattle.line_pieces.specs.HomeViews.{home_seen, homes_seen};
ghost use Rattle.line_pieces.specs.Homes.{home_of};
ghost use Rattle.scalar_ranges.specs.FrontViews.{seen_front};
ghost use Rattle.line_pieces.specs.Expressions.{covered, pair_operation, chain_operation, prefix_code, single};
ghost use Rattle.line_pieces.specs.Expressions.{is_byte_reference, scalar_code, is_leaf, is_leaf_term, is_pushed};
ghost use Rattle.line_pieces.specs.Expressions.{offset_of, offset_or_none, or_zero};
ghost use Rattle.line_pieces.specs.Expressions.{are_leaves, is_left_first, is_small, is_small_term};
ghost use Rattle.line_pieces.specs.Expressions.{byte_address, address_code, element_of_words, element_of_table};
ghost use Rattle.line_pieces.specs.Expressions.{element_code, expression_code, term_code, truth, known_address};
ghost use Rattle.line_pieces.specs.Expressions.{subscript_code, pushes_of, pair_code, equality_code};
ghost use Rattle.line_pieces.specs.Expressions.{added_for, added_by, next_above, next_below};
ghost use Rattle.line_pieces.specs.Expressions.{comparison_pushes, comparison_code, negated_unless, comes_last};

use crate::home::Home;
use crate::listing::Listing;
use crate::noting::Access;
use crate::setting::word_after;
use code_pieces::operations;
use occam_parser::{
    ArithmeticChain, ArithmeticPair, ChainOperator, Comparison, Expr, Logic, Operand, Operation,
    PairOperator, PrefixOperator, ValueType,
};
use prefix_decoder::Fun;
use scalar_ranges::{Front, Meaning, ScalarKind, Scope, read_operand, value_of};
use std::alloc::AllocError;
use word_arithmetic::{Range, checked_add, checked_sub};

/// The operation that an operator between two numbers is.
pub(crate) fn pair_operation(operator: ArithmeticPair) -> i32
    ensures { result ≡ pair_operation operator }
{
    match operator {
        ArithmeticPair::Subtract => operations::SUBTRACT,
        ArithmeticPair::Divide => operations::DIVIDE,
        ArithmeticPair::Remainder => operations::REMAINDER,
        ArithmeticPair::Minus => operations::DIFFERENCE,
        ArithmeticPair::ShiftLeft => operations::SHIFT_LEFT,
        ArithmeticPair::ShiftRight => operations::SHIFT_RIGHT,
    }
}

/// The operation that an operator of a chain is. No product of a checked program leaves the range of a word.
pub(crate) fn chain_operation(operator: ChainOperator) -> i32
    ensures { result ≡ chain_operation operator }
{
    match operator {
        ChainOperator::Arithmetic(ArithmeticChain::Add) => operations::ADD,
        ChainOperator::Arithmetic(ArithmeticChain::Multiply | ArithmeticChain::Times) => {
            operations::PRODUCT
        }
        ChainOperator::Arithmetic(ArithmeticChain::Plus) => operations::SUM,
        ChainOperator::Arithmetic(ArithmeticChain::BitAnd) | ChainOperator::Logic(Logic::And) => {
            operations::AND
        }
        ChainOperator::Arithmetic(ArithmeticChain::BitOr) | ChainOperator::Logic(Logic::Or) => {
            operations::OR
        }
        ChainOperator::Arithmetic(ArithmeticChain::BitXor) => operations::EXCLUSIVE_OR,
    }
}

/// Which operands of an operator between two are pushed.
#[derive(Clone, Copy)]
pub(crate) enum Pushes {
    /// The left one, and then the right one.
    Both,
    /// Both, in any order.
    Either,
    /// The right one, and then the left one.
    Exchanged,
    /// The left one alone.
    Left,
    /// The right one alone.
    Right,
    /// A constant, and then the left one.
    OnConstant(i32),
    /// The left one, and then a constant.
    BelowConstant(i32),
}

/// What is added in place of a constant that is subtracted.
pub(crate) fn added_for(operator: ArithmeticPair, right: Option<i32>) -> Option<i32>
    ensures { result ≡ added_for operator right }
{
    match (operator, right) {
        (ArithmeticPair::Subtract, Some(value)) => checked_sub(0, value),
        _ => None,
    }
}

/// The constant that an operand of a chain adds. To push the least word takes fewer bytes.
pub(crate) fn added_by(operator: ChainOperator, value: Option<i32>) -> Option<i32>
    ensures { result ≡ added_by operator value }
{
    match (operator, value) {
        (ChainOperator::Arithmetic(ArithmeticChain::Add), Some(value)) if value != i32::MIN => {
            Some(value)
        }
        _ => None,
    }
}

/// The constant after one, if it is a word.
fn next_above(value: Option<i32>) -> Option<i32>
    ensures { result ≡ next_above value }
{
    match value {
        Some(value) => checked_add(value, 1),
        None => None,
    }
}

/// The constant before one, if it is a word.
fn next_below(value: Option<i32>) -> Option<i32>
    ensures { result ≡ next_below value }
{
    match value {
        Some(value) => checked_sub(value, 1),
        None => None,
    }
}

/// Which operands are pushed, by the values of those that are constants.
pub(crate) fn pushes_of(operator: PairOperator, left: Option<i32>, right: Option<i32>) -> Pushes
    ensures { result ≡ pushes_of operator left right }
{
    match operator {
        PairOperator::Comparison(comparison) => comparison_pushes(comparison, left, right),
        PairOperator::Arithmetic(operator) => match added_for(operator, right) {
            Some(_) => Pushes::Left,
            None => Pushes::Both,
        },
    }
}

/// Which operands of a comparison are pushed. One side of an equality may be a constant that is an operand of the
/// comparison.
fn comparison_pushes(comparison: Comparison, left: Option<i32>, right: Option<i32>) -> Pushes
    ensures { result ≡ comparison_pushes comparison left right }
{
    match comparison {
        Comparison::Greater => Pushes::Both,
        Comparison::LessOrEqual => match next_above(right) {
            Some(value) => Pushes::OnConstant(value),
            None => Pushes::Both,
        },
        Comparison::Less => match right {
            Some(value) => Pushes::OnConstant(value),
            None => Pushes::Exchanged,
        },
        Comparison::GreaterOrEqual => match next_below(right) {
            Some(value) => Pushes::BelowConstant(value),
            None => Pushes::Exchanged,
        },
        Comparison::Equal | Comparison::NotEqual => match (left, right) {
            (_, Some(_)) => Pushes::Left,
            (Some(_), None) => Pushes::Right,
            (None, None) => Pushes::Either,
        },
    }
}

/// The value of `count` operands of a chain, if they belong to its front.
pub(crate) fn covered(front: Option<Front>, count: usize) -> Option<i32>
    ensures { result ≡ covered (option_map seen_front front) count }
{
    match front {
        Some(front) if count <= front.operands => Some(front.value),
        _ => None,
    }
}

/// The one number of a range, if it has one alone.
pub fn single(range: Result<Range, u8>) -> Option<i32>
    ensures { result ≡ single (all_ends range) }
{
    match range {
        Ok(range) if range.lo == range.hi => Some(range.lo),
        _ => None,
    }
}

/// The most words that an element may be behind the address of another one.
const GREATEST_OFFSET: i32 = 16_383;

/// The constant that an expression adds to the first operand of two: the element that the sum selects is so many words
/// behind the one that the first operand would select.
pub(crate) fn offset_of(scope: &Scope, expr: &Expr) -> Option<i32>
    ensures { result ≡ offset_of (entries_of scope.now) (expression_of expr.now) }
{
    match &*expr.operation {
        Operation::Chain {
            operator,
            second,
            others,
            ..
        } => {
            if !others.is_empty() {
                return None;
            }
            let value = read_operand(scope, second).value();
            offset_or_none(added_by(*operator, value))
        }
        Operation::Operand(_) | Operation::Prefix { .. } | Operation::Pair { .. } => None,
    }
}

/// A constant, if it may be an offset.
fn offset_or_none(value: Option<i32>) -> Option<i32>
    ensures { result ≡ offset_or_none value }
{
    match value {
        Some(value) if 0 <= value && value <= GREATEST_OFFSET => Some(value),
        _ => None,
    }
}

/// The words of an offset, or none.
pub(crate) fn or_zero(offset: Option<i32>) -> i32
    ensures { result ≡ or_zero offset }
{
    match offset {
        Some(words) => words,
        None => 0,
    }
}

/// Whether what has this meaning is a parameter that is a BYTE variable.
pub(crate) fn is_byte_reference(meaning: Option<Meaning>) -> bool
    ensures { result ≡ is_byte_reference (option_map meaning_of meaning) }
{
    match meaning {
        Some(
            Meaning::Scalar {
                kind: ScalarKind::Reference,
                value_type: ValueType::Byte,
                ..
            },
        ) => true,
        _ => false,
    }
}

/// Whether a name with this meaning is one push.
fn is_pushed(meaning: Option<Meaning>) -> bool
    ensures { result ≡ is_pushed (option_map meaning_of meaning) }
{
    !is_byte_reference(meaning)
}

/// Whether an expression is one push.
#[cycle(leaf)]
fn is_leaf(scope: &Scope, expr: &Expr) -> bool
    ensures { result ≡ is_leaf (entries_of scope.now) (expression_of expr.now) }
{
    match &*expr.operation {
        Operation::Operand(operand) => is_leaf_term(scope, operand),
        Operation::Prefix { .. } | Operation::Pair { .. } | Operation::Chain { .. } => {
            value_of(scope, expr).is_some()
        }
    }
}

/// Whether an operand is one push.
#[cycle(leaf)]
fn is_leaf_term(scope: &Scope, operand: &Operand) -> bool
    ensures { result ≡ is_leaf_term (entries_of scope.now) (term_of operand.now) }
{
    match operand {
        Operand::Integer(_)
        | Operand::Character(_)
        | Operand::Truth(_)
        | Operand::MostPos
        | Operand::MostNeg => true,
        Operand::Name(name) => is_pushed(scope.meaning(name)),
        Operand::Element { .. } => false,
        Operand::Bracketed(inner) => is_leaf(scope, inner),
        Operand::Converted { operand, .. } => is_leaf_term(scope, operand),
    }
}

/// Whether operands are one push each.
fn are_leaves(scope: &Scope, operands: &[Operand]) -> bool
    ensures { result ≡ are_leaves (entries_of scope.now) (map term_of operands.now) }
{
    for operand in operands {
        if !is_leaf_term(scope, operand) {
            return false;
        }
    }
    true
}

/// Whether all three are so.
fn all_three(first: bool, second: bool, third: bool) -> bool
    ensures { result ≡ (first && second && third) }
{
    first && second && third
}

/// Whether nothing is pushed before the left operand of this operator, whatever both are.
fn is_left_first(operator: PairOperator) -> bool
    ensures { result ≡ is_left_first operator }
{
    match operator {
        PairOperator::Arithmetic(_)
        | PairOperator::Comparison(
            Comparison::Greater | Comparison::Equal | Comparison::NotEqual,
        ) => true,
        PairOperator::Comparison(
            Comparison::Less | Comparison::LessOrEqual | Comparison::GreaterOrEqual,
        ) => false,
    }
}

/// Whether an expression takes two registers at most.
#[cycle(small)]
pub(crate) fn is_small(scope: &Scope, expr: &Expr) -> bool
    ensures { result ≡ is_small (entries_of scope.now) (expression_of expr.now) }
{
    match &*expr.operation {
        Operation::Operand(operand) => is_small_term(scope, operand),
        Operation::Prefix { operand, .. } => is_small_term(scope, operand),
        Operation::Pair {
            operator,
            left,
            right,
        } => {
            let second = is_leaf_term(scope, right);
            if is_left_first(*operator) {
                let first = is_small_term(scope, left);
                first && second
            } else {
                let first = is_leaf_term(scope, left);
                first && second
            }
        }
        Operation::Chain {
            first,
            second,
            others,
            ..
        } => {
            let first = is_small_term(scope, first);
            let second = is_leaf_term(scope, second);
            let others = are_leaves(scope, others);
            all_three(first, second, others)
        }
    }
}

/// Whether an operand takes two registers at most. Then what is pushed before it may stay in the third one.
#[cycle(small)]
pub(crate) fn is_small_term(scope: &Scope, operand: &Operand) -> bool
    ensures { result ≡ is_small_term (entries_of scope.now) (term_of operand.now) }
{
    match operand {
        Operand::Integer(_)
        | Operand::Character(_)
        | Operand::Truth(_)
        | Operand::MostPos
        | Operand::MostNeg
        | Operand::Name(_) => true,
        Operand::Element { subscript, .. } => is_small(scope, subscript),
        Operand::Bracketed(inner) => is_small(scope, inner),
        Operand::Converted { operand, .. } => is_small_term(scope, operand),
    }
}

/// Whether the first of two operands comes last: it is one push, and the second one takes three registers.
pub(crate) fn comes_last(scope: &Scope, first: &Operand, second: &Operand) -> bool
    ensures { result ≡ comes_last (is_leaf_term (entries_of scope.now) (term_of first.now))
        (is_small_term (entries_of scope.now) (term_of second.now)) }
{
    let is_leaf = is_leaf_term(scope, first);
    let is_small = is_small_term(scope, second);
    is_leaf && !is_small
}

impl Listing {
    /// What an operator before an operand does with its value.
    pub(crate) fn write_prefix(&mut self, operator: PrefixOperator) -> Result<(), AllocError>
        ensures { IfOk result (λ _. self.new ≡ self.old ++ prefix_code operator) }
    {
        match operator {
            PrefixOperator::Negate => {
                self.operate(operations::NOT)?;
                self.direct(Fun::AddConstant, 1)
            }
            PrefixOperator::BitNot => self.operate(operations::NOT),
            PrefixOperator::Not => self.direct(Fun::EqualsConstant, 0),
        }
    }

    /// The value of a scalar that is in this place.
    pub(crate) fn write_scalar(
        &mut self,
        is_reference: bool,
        home: Option<&Home>,
    ) -> Result<(), AllocError>
        ensures { IfOk result (λ _. self.new
            ≡ self.old ++ scalar_code is_reference (option_map (λ h. home_seen h.now) home.entry)) }
    {
        match home {
            Some(Home::Passed(word)) if is_reference => {
                self.notes.note_word(*word, Access::Reads)?;
                self.point(*word)?;
                self.operate(operations::LOAD_BYTE)
            }
            Some(Home::Word(word) | Home::Block { word, .. } | Home::Passed(word)) => {
                self.notes.note_word(*word, Access::Reads)?;
                self.load(*word)
            }
            Some(Home::Nowhere | Home::Link(_) | Home::Table(_)) | None => Ok(()),
        }
    }

    /// The address of a byte of an array, by the first of its words.
    fn write_byte_address(&mut self, word: u32, byte: u32) -> Result<(), AllocError>
        ensures { IfOk result (λ _. self.new ≡ self.old ++ byte_address word byte) }
    {
        let at = word_after(word, byte / 4);
        if byte % 4 == 0 {
            return self.point(at);
        }
        self.constant((byte % 4) as i32)?;
        self.point(at)?;
        self.operate(operations::BYTE_SUBSCRIPT)
    }

    /// The address of an element of an array, by the first of its words and the number of the element.
    pub(crate) fn write_known_address(
        &mut self,
        value_type: ValueType,
        word: u32,
        number: u32,
    ) -> Result<(), AllocError>
        ensures { IfOk result (λ _. self.new ≡ self.old ++ known_address value_type word number) }
    {
        match value_type {
            ValueType::Int => self.point(word_after(word, number)),
            ValueType::Byte => self.write_byte_address(word, number),
        }
    }

    /// The address of an element of an array, by the first of its words and the number of the element in A.
    pub(crate) fn write_subscript(
        &mut self,
        value_type: ValueType,
        word: u32,
    ) -> Result<(), AllocError>
        ensures { IfOk result (λ _. self.new ≡ self.old ++ subscript_code value_type word) }
    {
        self.point(word)?;
        match value_type {
            ValueType::Int => self.operate(operations::WORD_SUBSCRIPT),
            ValueType::Byte => self.operate(operations::BYTE_SUBSCRIPT),
        }
    }

    /// What an operator between two operands does with what is pushed of them, by their values if they are constants.
    pub(crate) fn write_pair(
        &mut self,
        operator: PairOperator,
        left: Option<i32>,
        right: Option<i32>,
    ) -> Result<(), AllocError>
        ensures { IfOk result (λ _. self.new ≡ self.old ++ pair_code operator left right) }
    {
        match operator {
            PairOperator::Comparison(comparison) => self.write_comparison(comparison, left, right),
            PairOperator::Arithmetic(operator) => match added_for(operator, right) {
                Some(value) => self.direct(Fun::AddConstant, value),
                None => self.operate(pair_operation(operator)),
            },
        }
    }

    /// What a comparison does with what is pushed.
    fn write_comparison(
        &mut self,
        comparison: Comparison,
        left: Option<i32>,
        right: Option<i32>,
    ) -> Result<(), AllocError>
        ensures { IfOk result (λ _. self.new ≡ self.old ++ comparison_code comparison left right) }
    {
        match comparison {
            Comparison::Greater | Comparison::Less => self.operate(operations::GREATER),
            Comparison::LessOrEqual => {
                self.operate(operations::GREATER)?;
                self.write_negated_unless(next_above(right))
            }
            Comparison::GreaterOrEqual => {
                self.operate(operations::GREATER)?;
                self.write_negated_unless(next_below(right))
            }
            Comparison::Equal => self.write_equality(left, right),
            Comparison::NotEqual => {
                self.write_equality(left, right)?;
                self.direct(Fun::EqualsConstant, 0)
            }
        }
    }

    /// A becomes the truth that it is not, unless the comparison is one with the constant next to one.
    fn write_negated_unless(&mut self, next: Option<i32>) -> Result<(), AllocError>
        ensures { IfOk result (λ _. self.new ≡ self.old ++ negated_unless next) }
    {
        match next {
            Some(_) => Ok(()),
            None => self.direct(Fun::EqualsConstant, 0),
        }
    }

    /// Whether what is pushed is equal to a constant, or both operands are equal.
    fn write_equality(&mut self, left: Option<i32>, right: Option<i32>) -> Result<(), AllocError>
        ensures { IfOk result (λ _. self.new ≡ self.old ++ equality_code left right) }
    {
        match (left, right) {
            (_, Some(value)) | (Some(value), None) => self.direct(Fun::EqualsConstant, value),
            (None, None) => {
                self.operate(operations::DIFFERENCE)?;
                self.direct(Fun::EqualsConstant, 0)
            }
        }
    }
}
