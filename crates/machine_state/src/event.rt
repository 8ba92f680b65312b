//! What can happen to a machine, and what it returns.

use crate::link::Link;

/// One event.
#[derive(Clone, Copy)]
pub enum Event {
    /// One byte of the running process. `slice`: where it completes a jump, the process goes to the
    /// back of the ready list. `pick`: which ready process runs next, counted round the list.
    Step { slice: bool, pick: u64 },
    /// A byte arrives on a link.
    Arrive { link: Link, byte: u8 },
    /// The other side of a link acknowledges the message emitted there.
    Acknowledge { link: Link },
}

/// What an event did.
#[derive(Clone, Copy)]
pub enum Effect<'a> {
    /// A byte was executed.
    Ran,
    /// No process is running, and nothing changed.
    Idle,
    /// A byte was executed, and with it this message went out.
    Emitted { link: Link, bytes: &'a [u8] },
    /// The byte went to a process that waits for it.
    Taken,
    /// The byte is kept on the link.
    Kept,
    /// A byte is kept there already, and nothing changed.
    Busy,
    /// The sender goes on.
    Acknowledged,
    /// No process waits for it, and nothing changed.
    Ignored,
}
