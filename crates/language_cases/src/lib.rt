//! Cases of sources: what the layers of sources return, what is written of sources, and what comes of programs that are
//! compiled and run. A file may be a program that says its cases itself. The calls that are repeated are `lines`, `parse` and
//! `check`.
#![tactic(auto)]

mod asking;
mod course;
mod given;
mod layers;
mod modules;
mod quoted;
mod reasons;
mod repeating;
mod running;
mod schedule;
mod setting;
mod source;
mod tokens;
mod trees;
mod values;

pub use repeating::Repeated;
pub use setting::Setting;
