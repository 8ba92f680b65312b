//! What a line takes: the words of names, the items of constants, and the bytes of actions.

use occam_parser::{Action, ConstantValue, Expr, Names, ValueType};
use program_uses::size_in;
use scalar_ranges::Scope;

/// How many words a variable or a channel has, or an array of them.
fn words_of_one(scope: &Scope, value_type: ValueType, size: &Option<Expr>) -> u64 {
    let Some(size) = size else { return 1 };
    let count = u64::from(size_in(scope, size).unwrap_or(0));
    match value_type {
        ValueType::Int => count,
        ValueType::Byte => count / 4 + u64::from(count % 4 != 0),
    }
}

/// How many items a constant has.
pub(crate) fn items_of(value: &ConstantValue) -> u64 {
    match value {
        ConstantValue::Scalar(_) => 0,
        ConstantValue::Table { items, .. } => items.others.len() as u64 + 1,
        ConstantValue::Text { text, .. } => text.len() as u64,
    }
}

/// How many names a line declares.
pub(crate) fn names_of(names: &Names) -> u64 {
    (names.names.others.len() as u64).saturating_add(1)
}

/// How many words the variables or the channels have that a line declares.
pub(crate) fn words_of(scope: &Scope, value_type: ValueType, names: &Names) -> u64 {
    words_of_one(scope, value_type, &names.size).saturating_mul(names_of(names))
}

/// How many bytes of code an action has at least: what is stored or sent is pushed before.
pub(crate) fn bytes_of(action: &Action) -> u64 {
    match action {
        Action::Skip | Action::Instance { .. } => 0,
        Action::Stop => 2,
        Action::Assign { .. } => 2,
        Action::Input { .. } | Action::Output { .. } => 4,
    }
}
