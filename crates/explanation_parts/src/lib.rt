//! The parts of an explanation: what is written of an instruction, and the parts of the sentence that explains a refusal,
//! but for those of `found_parts`.
#![tactic(auto)]

pub mod begun;
pub mod calls;
pub mod channels;
pub mod costs;
pub mod labels;
mod lacks;
pub mod leads;
pub mod modes;
pub mod parameters;
pub mod places;
pub mod refusals;
pub mod registers;
pub mod results;
pub mod sights;
pub mod uses;
pub mod wanted;
pub mod ways;
