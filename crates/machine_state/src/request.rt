//! What an instruction asks of other processes.

use crate::process::Exchange;

/// What a process asks of the others, by an instruction that it cannot complete alone. Who grants it takes the words of
/// memory that it takes.
#[derive(Clone, Copy)]
pub enum Request {
    /// A message is to be received.
    Receive(Exchange),
    /// A message is to be sent.
    Send(Exchange),
    /// The branch that begins at a code offset is to start, with a workspace at this address.
    Start {
        to: u32,
        workspace: u32,
    },
    /// The process ends in the join whose block has this address.
    Join {
        block: u32,
    },
    /// It begins an alternation.
    Begin,
    /// The channel or link at an address is to be enabled, if the guard holds.
    EnableChannel {
        guard: bool,
        address: u32,
    },
    /// A skip is to be enabled, if the guard holds.
    EnableSkip {
        guard: bool,
    },
    /// The process waits until something that it has enabled is ready.
    Wait,
    /// The channel or link at an address is to be disabled, if the guard holds. The distance is what it may select.
    DisableChannel {
        guard: bool,
        address: u32,
        distance: i32,
    },
    /// A skip is to be disabled, if the guard holds. The distance is what it may select.
    DisableSkip {
        guard: bool,
        distance: i32,
    },
    /// The process ends its alternation, and goes on at this code offset.
    End {
        to: u32,
    },
}
