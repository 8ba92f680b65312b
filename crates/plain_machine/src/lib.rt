//! What a machine is built on that keeps no records: memory as plain bytes, the queue of ready processes in their
//! workspaces, and the instructions on plain words.
#![tactic(auto)]

mod bytes;
mod bytewise;
mod decoded;
mod decoding;
mod flow;
mod input;
mod joining;
mod known_module;
mod landings;
mod locals;
mod loops;
mod operating;
mod parking;
mod performing;
mod plain_store;
mod pointers;
mod registers;
mod running;
mod sequences;
mod words;
mod workspace_queue;
mod workspaces;

pub use bytewise::execute_byte;
pub use decoded::DecodedInstruction;
pub use decoding::DecodedCode;
pub use flow::PlainFlow;
pub use input::{PlainArrival, PlainInput};
pub use known_module::KnownModule;
pub use parking::{park, resume};
pub use plain_store::PlainStore;
pub use registers::PlainRegisters;
pub use workspace_queue::WorkspaceQueue;
pub use workspaces::Workspaces;
