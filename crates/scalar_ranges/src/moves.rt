//! What becomes known where variables change.

ghost use Rattle.std.specs.Prelude.{◌≡◌, true};
ghost use Rattle.word_arithmetic.specs.Range.{ends_of};
ghost use Rattle.scalar_ranges.specs.Moves.{at_number, with_meaning, assigned, assign, widened, widen, hull_meaning};
ghost use Rattle.scalar_ranges.specs.MoveLaws.{shape};
ghost use Rattle.scalar_ranges.specs.Changes.{changed_to};
ghost use Rattle.scalar_ranges.specs.Scopes.{meaning_of, entries_of, blocks_of};

use crate::bounds::type_range;
use crate::scope::{Meaning, ScalarKind, Scope};
use occam_parser::ValueType;
use word_arithmetic::Range;

impl Scope<'_> {
    /// A number in this range was assigned to the variable with this number.
    pub fn assign(&mut self, number: usize, range: Range)
        ensures entries { entries_of self.new ≡ assign number (ends_of range) (entries_of self.old) }
        ensures blocks { blocks_of self.new ≡ blocks_of self.old }
    {
        if let Some(meaning) = self.known.meaning(number) {
            self.put(number, assigned(range, meaning));
        }
    }

    /// The variable with this number was changed to any number of its type.
    pub fn receive(&mut self, number: usize)
        ensures entries { entries_of self.new ≡ at_number (with_meaning widened) number (entries_of self.old) }
        ensures blocks { blocks_of self.new ≡ blocks_of self.old }
    {
        if let Some(meaning) = self.known.meaning(number) {
            if !is_wide(meaning) {
                self.put(number, widened(meaning));
            }
        }
    }

    /// The entry with this number means something else, but for ranges the same.
    pub(crate) fn put(&mut self, number: usize, meaning: Meaning)
        requires { shape (changed_to (meaning_of meaning) number (entries_of self.old)) ≡ shape (entries_of self.old) }
        ensures entries { entries_of self.new ≡ changed_to (meaning_of meaning) number (entries_of self.old) }
        ensures blocks { blocks_of self.new ≡ blocks_of self.old }
    {
        self.known.put(number, meaning);
    }

    /// Each of the variables with these numbers was changed to any number of its type.
    pub fn widen(&mut self, numbers: &[usize])
        ensures entries { entries_of self.new ≡ widen numbers.now (entries_of self.old) }
        ensures blocks { blocks_of self.new ≡ blocks_of self.old }
    {
        for number in numbers {
            self.receive(*number);
        }
    }
}

/// What a name means once a number in this range was assigned to it.
fn assigned(range: Range, meaning: Meaning) -> Meaning
    ensures { meaning_of result ≡ assigned (ends_of range) (meaning_of meaning) }
{
    match meaning {
        Meaning::Scalar {
            kind: ScalarKind::Variable,
            value_type,
            ..
        } => Meaning::Scalar {
            kind: ScalarKind::Variable,
            value_type,
            range,
        },
        other => other,
    }
}

/// Whether no more is known of a name than its type, so that widening it changes nothing.
fn is_wide(meaning: Meaning) -> bool
    ensures { result ≡ true → widened (meaning_of meaning) ≡ meaning_of meaning }
{
    match meaning {
        Meaning::Scalar {
            kind: ScalarKind::Variable,
            value_type,
            range,
        } => range == type_range(value_type),
        _ => true,
    }
}

/// Whether both are one type.
fn is_same_type(first: ValueType, second: ValueType) -> bool
    ensures { result ≡ true → first ≡ second }
{
    matches!(
        (first, second),
        (ValueType::Int, ValueType::Int) | (ValueType::Byte, ValueType::Byte)
    )
}

/// Whether both are one scalar with one range.
pub(crate) fn is_same(first: Meaning, second: Meaning) -> bool
    ensures { result ≡ true → meaning_of first ≡ meaning_of second }
{
    match (first, second) {
        (
            Meaning::Scalar {
                kind,
                value_type,
                range,
            },
            Meaning::Scalar {
                kind: other_kind,
                value_type: other_type,
                range: other_range,
            },
        ) => is_same_type(value_type, other_type) && kind == other_kind && range == other_range,
        _ => false,
    }
}

/// What a name means of which no more is known than its type.
fn widened(meaning: Meaning) -> Meaning
    ensures { meaning_of result ≡ widened (meaning_of meaning) }
{
    match meaning {
        Meaning::Scalar { value_type, .. } => assigned(type_range(value_type), meaning),
        other => other,
    }
}

/// The hull of both ranges of a scalar.
pub(crate) fn hull_meaning(first: Meaning, second: Meaning) -> Meaning
    ensures { meaning_of result ≡ hull_meaning (meaning_of first) (meaning_of second) }
{
    match (first, second) {
        (
            Meaning::Scalar {
                kind,
                value_type,
                range,
            },
            Meaning::Scalar { range: other, .. },
        ) => Meaning::Scalar {
            kind,
            value_type,
            range: range.hull(other),
        },
        _ => first,
    }
}
