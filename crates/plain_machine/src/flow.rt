//! What an instruction leaves to be done.

/// What an instruction leaves to be done, once it has changed registers and memory. Operands are in the registers
/// still: A, B and C are as they were wherever the process asks something of others.
#[derive(Clone, Copy)]
pub enum PlainFlow {
    /// The process goes on.
    Next,
    /// The process goes on, and may go to the back of the ready list.
    Jump,
    /// The process stops for good.
    Stop,
    /// A message of A bytes is to be received at C from channel B.
    Receive,
    /// A message of A bytes at C is to be sent to channel B.
    Send,
    /// The branch B bytes on is to start, with workspace A.
    Start,
    /// The process ends in the join of block A.
    Join,
    /// An alternation begins.
    Begin,
    /// Channel B is to be enabled if the guard A holds.
    EnableChannel,
    /// A skip is to be enabled if the guard A holds.
    EnableSkip,
    /// The process waits until something that it has enabled is ready.
    Wait,
    /// Channel C is to be disabled if the guard B holds, and may select the distance A.
    DisableChannel,
    /// A skip is to be disabled if the guard B holds, and may select the distance A.
    DisableSkip,
    /// The alternation ends, and its process goes on at the distance that is selected.
    End,
}
