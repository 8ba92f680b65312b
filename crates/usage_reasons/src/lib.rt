//! Why a line of a program breaks a usage rule, and where.
#![tactic(auto)]

mod blocks;
mod cause;
mod declarations;
mod expressions;
mod instances;
mod items;
mod known;
mod lines;
mod main_reason;
mod nearest;
mod operators;
mod passing;
mod reason;
mod sharing;
mod site;
mod small_parts;
mod tokens;
mod walk;

pub use items::usage_reason;
pub use reason::{Deed, KnownName, LastItem, Operator, Reason, Results, Sort, Tokens, Why};
