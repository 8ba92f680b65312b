//! What a rule says of an instruction, and what the rules of all families of instructions are made of.
#![tactic(auto)]

mod channel_ends;
pub mod channels;
pub mod combinators;
mod continuation;
pub mod filling;
mod place;
pub mod pointers;
pub mod reach;
pub mod reading;
pub mod writing;

pub use continuation::Continuation;
pub use place::Place;
