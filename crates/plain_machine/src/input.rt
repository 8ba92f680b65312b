//! The input side of a link.

/// A message that is received on a link.
#[derive(Clone, Copy)]
pub struct PlainArrival {
    /// The address of the workspace of the process that waits for it.
    pub workspace: u32,
    /// The address of its first byte.
    pub address: u32,
    /// How many bytes it has.
    pub length: u32,
    /// How many of them have come.
    pub done: u32,
}

/// The input side of a link: processes are the addresses of their workspaces.
#[derive(Clone, Copy)]
pub struct PlainInput {
    /// The byte that has come and that no process has taken.
    pub kept: Option<u8>,
    /// The message that a process waits for.
    pub waiting: Option<PlainArrival>,
    /// The process whose alternation has enabled the link.
    pub enabled: Option<u32>,
}
