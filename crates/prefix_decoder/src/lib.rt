//! The coding of T414 instructions: a function and its operand as bytes, and bytes as the one
//! instruction that they spell.
#![tactic(auto)]

mod decoding;
mod encoding;
mod function;
mod laws;
pub mod operand;

pub use decoding::{DecodeFault, Instr, fetch};
pub use encoding::encode;
pub use function::{Fun, NEGATIVE_PREFIX, PREFIX};
pub use laws::{
    device_reads_each_spelling, each_operand_has_a_spelling, no_second_spelling,
    no_spelling_begins_another,
};
