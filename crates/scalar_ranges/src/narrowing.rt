//! What a condition says of a scalar that it compares with a constant.

ghost use Rattle.std.specs.Prelude.{◌≡◌, option_map};
ghost use Rattle.word_arithmetic.specs.Range.{ends_of};
ghost use Rattle.occam_parser.specs.Views.{expression_of, term_of};
ghost use Rattle.scalar_ranges.specs.Narrowing.{is_narrowed, are_alike, constant_in, tested, turned};
ghost use Rattle.scalar_ranges.specs.Narrowing.{as_holds, test_of};
ghost use Rattle.scalar_ranges.specs.Narrowing.{left_of, with_range, narrow};
ghost use Rattle.scalar_ranges.specs.Scopes.{meaning_of, entries_of, blocks_of};
ghost use Rattle.scalar_ranges.specs.Tests.{tested_of, changed_by};

use crate::reading::read_operand;
use crate::scope::{Meaning, ScalarKind, Scope};
use crate::types::{ExprType, named_type};
use occam_parser::{Comparison, Expr, Operand, Operation, PairOperator};
use word_arithmetic::Range;

/// What a condition says: the scalar of this name compares so with this constant.
#[derive(Clone, Copy)]
pub struct Test<'e> {
    /// The name of a scalar that a line declares, or of a `VAL` parameter.
    pub name: &'e [u8],
    /// The comparison with the scalar on its left.
    pub comparison: Comparison,
    /// A number of the scalar's type.
    pub constant: i32,
}

/// The scope where a condition has this truth. Only a condition that is exactly a scalar, a comparison and a constant
/// of the scalar's type, in either order, says more than was known. It takes no memory.
pub fn narrow_by(scope: &mut Scope, condition: &Expr, holds: bool)
    ensures entries { entries_of scope.new ≡ narrow (entries_of scope.old) (expression_of condition.now) holds }
    ensures blocks { blocks_of scope.new ≡ blocks_of scope.old }
{
    if let Some((number, meaning)) = narrowed_by(scope, condition, holds) {
        scope.put(number, meaning);
    }
}

/// The number of the scalar that a condition with this truth narrows, and what it means then.
fn narrowed_by(scope: &Scope, condition: &Expr, holds: bool) -> Option<(usize, Meaning)>
    ensures { narrow (entries_of scope.now) (expression_of condition.now) holds
        ≡ changed_by result (entries_of scope.now) }
{
    let test = test_of(scope, condition)?;
    let number = scope.find(test.name)?;
    let meaning = scope.known.meaning(number)?;
    let comparison = as_holds(holds, test.comparison);
    Some((number, narrowed(meaning, comparison, test.constant)))
}

/// What a condition says, if it is exactly a scalar and a constant of its type with a comparison between them, in
/// either order. [`narrow_by`] narrows the scalar's range by such a condition, and nothing by another one.
pub fn test_of<'e>(scope: &Scope, condition: &'e Expr) -> Option<Test<'e>>
    ensures { option_map tested_of result ≡ test_of (entries_of scope.now) (expression_of condition.now) }
{
    match &*condition.operation {
        Operation::Pair {
            operator: PairOperator::Comparison(comparison),
            left,
            right,
        } => match tested(scope, *comparison, left, right) {
            Some(test) => Some(test),
            None => tested(scope, turned(*comparison), right, left),
        },
        _ => None,
    }
}

fn tested<'e>(
    scope: &Scope,
    comparison: Comparison,
    scalar: &'e Operand,
    constant: &Operand,
) -> Option<Test<'e>>
    ensures { option_map tested_of result
        ≡ tested (entries_of scope.now) comparison (term_of scalar.now) (term_of constant.now) }
{
    match scalar {
        Operand::Name(name) => {
            let meaning = scope.meaning(name);
            if !is_narrowed(meaning) {
                return None;
            }
            let constant = constant_in(scope, named_type(meaning), constant)?;
            Some(Test {
                name,
                comparison,
                constant,
            })
        }
        Operand::Integer(_)
        | Operand::Character(_)
        | Operand::Truth(_)
        | Operand::MostPos
        | Operand::MostNeg
        | Operand::Element { .. }
        | Operand::Bracketed(_)
        | Operand::Converted { .. } => None,
    }
}

/// Whether both are numbers of one type.
fn are_alike(first: Result<ExprType, u8>, second: Result<ExprType, u8>) -> bool
    ensures { result ≡ are_alike first second }
{
    match (first, second) {
        (Ok(ExprType::Int), Ok(ExprType::Int)) | (Ok(ExprType::Byte), Ok(ExprType::Byte)) => true,
        _ => false,
    }
}

/// The value of a constant operand of this type.
fn constant_in(scope: &Scope, wanted: Result<ExprType, u8>, operand: &Operand) -> Option<i32>
    ensures { result ≡ constant_in (entries_of scope.now) wanted (term_of operand.now) }
{
    let reading = read_operand(scope, operand);
    if are_alike(wanted, reading.expr_type) {
        reading.value()
    } else {
        None
    }
}

/// Whether conditions narrow what has this meaning.
fn is_narrowed(meaning: Option<Meaning>) -> bool
    ensures { result ≡ is_narrowed (option_map meaning_of meaning) }
{
    match meaning {
        Some(Meaning::Scalar { kind, .. }) => match kind {
            ScalarKind::Variable | ScalarKind::Value => true,
            ScalarKind::Reference | ScalarKind::Index => false,
        },
        _ => false,
    }
}

/// The comparison that holds with the operands exchanged.
fn turned(comparison: Comparison) -> Comparison
    ensures { result ≡ turned comparison }
{
    comparison.mirrored()
}

/// The comparison that holds where one has this truth.
pub(crate) fn as_holds(holds: bool, comparison: Comparison) -> Comparison
    ensures { result ≡ as_holds holds comparison }
{
    if holds {
        comparison
    } else {
        comparison.negated()
    }
}

/// What is left of a scalar's range by a comparison with a constant.
pub(crate) fn narrowed(meaning: Meaning, comparison: Comparison, constant: i32) -> Meaning
    ensures { meaning_of result ≡ with_range (left_of comparison constant) (meaning_of meaning) }
{
    match meaning {
        Meaning::Scalar {
            kind,
            value_type,
            range,
        } => Meaning::Scalar {
            kind,
            value_type,
            range: left_of(range, comparison, constant),
        },
        other => other,
    }
}

#[tactic(auto, using(crate::proofs::Words::range_is_between))]
fn left_of(range: Range, comparison: Comparison, constant: i32) -> Range
    ensures { ends_of result ≡ left_of comparison constant (ends_of range) }
{
    range.narrow(comparison, constant)
}
