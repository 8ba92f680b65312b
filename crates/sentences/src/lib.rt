//! The sentence that explains a refusal, and what is written before it.
#![tactic(auto)]

mod found;
mod moves;
mod parts;
mod payments;
mod reasons;
mod rows;
mod sentence;
mod started;
mod targets;

pub use reasons::{Broken, push_breach};
