//! What is known of the numbers in a program: the types of expressions, their values and their ranges.
#![tactic(auto)]

mod bounds;
mod branches;
mod changes;
mod deferred;
mod entries;
mod fronts;
mod laws;
mod leaving;
mod moves;
mod names;
mod narrowing;
mod operands;
mod ranges;
mod reading;
mod results;
mod scope;
mod slots;
mod spare;
mod steps;
mod types;

pub use bounds::{OUT_OF_RANGE, OUTSIDE, is_subscript, type_range};
pub use fronts::{Front, front_of};
pub use laws::{
    bounds_hold, branches_hold, changes_hold, constants_hold, lists_hold, loops_hold, names_hold,
    narrowing_holds, shapes_stay,
};
pub use narrowing::{Test, narrow_by, test_of};
pub use ranges::{range_of, value_of};
pub use reading::{Reading, read, read_operand};
pub use scope::{ArrayKind, Declared, Entry, Meaning, ScalarKind, Scope};
pub use types::{ExprType, UNKNOWN_NAME, WRONG_TYPE, type_of, type_of_values};
