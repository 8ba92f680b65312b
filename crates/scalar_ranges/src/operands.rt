//! What is before one operand, and between two.

use occam_parser::{ChainOperator, PairOperator, PrefixOperator, ValueType};

/// What is before one operand.
#[derive(Clone, Copy)]
pub(crate) enum Before {
    Operator(PrefixOperator),
    /// The operand is converted to this type.
    Conversion(ValueType),
}

/// What is between two operands.
#[derive(Clone, Copy)]
pub(crate) enum Between {
    Pair(PairOperator),
    /// The first operand is what the chain has come to.
    Chain(ChainOperator),
}
