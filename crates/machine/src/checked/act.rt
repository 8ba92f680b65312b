//! What an event did.

use machine_state::{Exchange, Link};

/// What an event did, before its bytes are lent.
#[derive(Clone, Copy)]
pub(crate) enum Act {
    Ran,
    Idle,
    /// The bytes of this message went out on this link.
    Emitted { link: Link, exchange: Exchange },
    Taken,
    Kept,
    Busy,
    Acknowledged,
    Ignored,
}
