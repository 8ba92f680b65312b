//! Cases of command lines of a command, over files and streams in memory.
#![tactic(auto)]

mod asking;
mod command;
mod expected;
mod files;
mod folder;
mod generating;
mod left;
mod setting;
mod stream;
mod words;

pub use asking::CommandCases;
pub use command::Command;
