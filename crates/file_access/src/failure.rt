//! What may fail about files, and about the links that they are on.

use machine_state::Link;
use std::alloc::AllocError;
use thiserror::Error;

/// Which file or link failed, or that memory ran out.
#[derive(Clone, Copy, Debug, Error)]
pub enum FileFailure<'a> {
    /// The file of this path was not read or opened.
    #[error("cannot read {0}")]
    Unread(&'a str),
    /// The file of this path was not created, or not written.
    #[error("cannot write {0}")]
    Uncreated(&'a str),
    /// A read of this input link failed.
    #[error("link in{} read failed", .0.index())]
    ReadFailed(Link),
    /// A write on this output link failed.
    #[error("link out{} write failed", .0.index())]
    WriteFailed(Link),
    /// Memory ran out.
    #[error("out of memory")]
    Memory,
}

impl From<AllocError> for FileFailure<'_> {
    ghost use Rattle.std.specs.Prelude.{◌≡◌};
    ghost use Rattle.file_access.specs.declared.failure.FileFailure.TheVariants as stops;

    ghost from_gives = { λ _ failure. failure ≡ stops.Memory };

    fn from(_error: AllocError) -> Self {
        FileFailure::Memory
    }
}
