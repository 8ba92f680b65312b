//! What the names denote that are declared within a procedure.

ghost use Rattle.std.specs.Prelude.{◌≡◌};
ghost use Rattle.word_arithmetic.specs.Range.{ends_of};
ghost use Rattle.scalar_ranges.specs.Moves.{variable, constant_index, index};
ghost use Rattle.scalar_ranges.specs.Scopes.{entry_of};

use crate::scope::{Entry, Meaning, ScalarKind};
use occam_parser::ValueType;
use word_arithmetic::Range;

impl<'a> Entry<'a> {
    /// A scalar that a line declares. Its value is 0 there.
    pub fn variable(name: &'a [u8], value_type: ValueType) -> Entry<'a>
        ensures { entry_of result ≡ variable name.now value_type }
    {
        let meaning = Meaning::Scalar {
            kind: ScalarKind::Variable,
            value_type,
            range: Range::constant(0),
        };
        Entry { name, meaning }
    }

    /// The replicator of a `PAR`, an `IF` or an `ALT` at one of its values; `None` if its declaration breaks a rule.
    pub fn constant_index(name: &'a [u8], value: Option<i32>) -> Entry<'a>
        ensures { entry_of result ≡ constant_index name.now value }
    {
        let meaning = Meaning::Constant {
            value_type: ValueType::Int,
            value,
        };
        Entry { name, meaning }
    }

    /// The replicator of a `SEQ`, by where its values lie.
    pub fn index(name: &'a [u8], range: Range) -> Entry<'a>
        ensures { entry_of result ≡ index name.now (ends_of range) }
    {
        let meaning = Meaning::Scalar {
            kind: ScalarKind::Index,
            value_type: ValueType::Int,
            range,
        };
        Entry { name, meaning }
    }
}
