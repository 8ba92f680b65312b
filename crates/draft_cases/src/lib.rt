//! Cases of drafts: what they are assembled to, and how instructions are spelled.
#![tactic(auto)]

mod asking;
mod assembling;
mod draft_code;
mod draft_rows;
mod drafts;
mod setting;
mod spelling;

pub use setting::Setting;
