//! What is known of a number before the program runs.

ghost use Rattle.std.specs.Prelude.{◌≡◌, Some, option_map};
ghost use Rattle.word_arithmetic.specs.Range.{ends_of, truths};
ghost use Rattle.scalar_ranges.specs.Entries.{type_range};
ghost use Rattle.scalar_ranges.specs.Bounds.{Exactly, Within, ends, range_of_bound, named_bound, element_bound};
ghost use Rattle.scalar_ranges.specs.Bounds.{is_subscript, converted_bound};
ghost use Rattle.scalar_ranges.specs.BoundViews.{known, all_known};
ghost use Rattle.scalar_ranges.specs.Scopes.{meaning_of};
ghost use Rattle.scalar_ranges.specs.Steps.{and_then, ok_or};

use crate::scope::Meaning;
use occam_parser::ValueType;
use word_arithmetic::Range;

/// The number of the fault that a result may be out of range: of an operator, a conversion or a constant.
pub const OUT_OF_RANGE: u8 = 16;
/// The number of the fault that a subscript may be outside its array.
pub const OUTSIDE: u8 = 17;

/// What is known of a number.
#[derive(Clone, Copy)]
pub(crate) enum Bound {
    /// The value of a constant expression.
    Exactly(i32),
    /// Where another number lies.
    Within(Range),
}

impl Bound {
    /// Where the number lies.
    #[tactic(auto, using(crate::proofs::Words::range_is_between))]
    pub(crate) fn range(self) -> Range
        ensures ends { ends_of result ≡ ends (known self) }
        ensures words { range_of_bound (known self) ≡ Some (ends_of result) }
    {
        match self {
            Bound::Exactly(value) => Range::constant(value),
            Bound::Within(range) => range,
        }
    }
}

/// What is known of a condition.
pub(crate) fn truth_bound() -> Bound
    ensures { known result ≡ Within truths }
{
    Bound::Within(Range::truths())
}

/// What is known of a constant, if it has a value.
pub(crate) fn exactly(value: Option<i32>) -> Result<Bound, u8>
    ensures { all_known result ≡ ok_or OUT_OF_RANGE (option_map Exactly value) }
{
    Ok(Bound::Exactly(value.ok_or(OUT_OF_RANGE)?))
}

/// What is known of a number in a range, if there is one.
pub(crate) fn within(range: Option<Range>) -> Result<Bound, u8>
    ensures { all_known result ≡ ok_or OUT_OF_RANGE (option_map Within (option_map ends_of range)) }
{
    Ok(Bound::Within(range.ok_or(OUT_OF_RANGE)?))
}

/// The numbers of a type.
pub fn type_range(value_type: ValueType) -> Range
    ensures { ends_of result ≡ type_range value_type }
{
    match value_type {
        ValueType::Int => Range::full(),
        ValueType::Byte => Range::new(0, 255),
    }
}

/// What is known of a name without a subscript.
pub(crate) fn named_bound(meaning: Option<Meaning>) -> Result<Bound, u8>
    ensures { all_known result ≡ named_bound (option_map meaning_of meaning) }
{
    let bound = match meaning {
        Some(
            Meaning::Constant {
                value: Some(value),
                ..
            },
        ) => Bound::Exactly(value),
        Some(
            Meaning::Constant {
                value_type,
                value: None,
            },
        ) => Bound::Within(type_range(value_type)),
        Some(Meaning::Scalar { range, .. }) => Bound::Within(range),
        _ => Bound::Within(Range::full()),
    };
    Ok(bound)
}

/// Whether each number of a range is a subscript of an array.
pub fn is_subscript(size: u32, subscripts: Range) -> bool
    ensures { result ≡ is_subscript size (ends_of subscripts) }
{
    0 <= subscripts.lo && i64::from(subscripts.hi) < i64::from(size)
}

/// What is known of an element of an array.
pub(crate) fn element_bound(
    meaning: Option<Meaning>,
    subscript: Result<Bound, u8>,
) -> Result<Bound, u8>
    ensures { all_known result ≡ and_then (all_known subscript) (element_bound (option_map meaning_of meaning)) }
{
    let subscript = subscript?;
    match meaning {
        Some(
            Meaning::Array {
                size: Some(size),
                range,
                ..
            },
        ) => {
            if is_subscript(size, subscript.range()) {
                Ok(Bound::Within(range))
            } else {
                Err(OUTSIDE)
            }
        }
        Some(
            Meaning::Array {
                size: None,
                range,
                ..
            },
        ) => Ok(Bound::Within(range)),
        _ => Ok(Bound::Within(Range::full())),
    }
}

/// What is known of a number that is converted to a type.
pub(crate) fn converted_bound(to: ValueType, operand: Bound) -> Result<Bound, u8>
    ensures { all_known result ≡ converted_bound to (known operand) }
{
    if operand.range().fits_within(type_range(to)) {
        Ok(operand)
    } else {
        Err(OUT_OF_RANGE)
    }
}
