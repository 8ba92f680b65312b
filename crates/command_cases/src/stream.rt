//! Standard output and standard error.

use std::alloc::Global;
use std::io::{self, ErrorKind, Write};

/// A stream that takes so many bytes, and then fails.
#[derive(Drop)]
pub(crate) struct Stream {
    bytes: Vec<u8>,
    most: usize,
}

impl Stream {
    /// Nothing is written yet.
    pub(crate) fn new(alloc: Global, most: usize) -> Self {
        Stream {
            bytes: Vec::new(alloc),
            most,
        }
    }

    /// What was written.
    pub(crate) fn into_bytes(self) -> Vec<u8> {
        self.bytes
    }
}

impl Write for Stream {
    fn write(&mut self, bytes: &[u8]) -> io::Result<usize> {
        let room = self.most.saturating_sub(self.bytes.len());
        let taken = bytes.get(..room).unwrap_or(bytes);
        if taken.is_empty() && !bytes.is_empty() {
            return Err(ErrorKind::Other.into());
        }
        self.bytes.extend_from_slice(taken)?;
        Ok(taken.len())
    }

    fn flush(&mut self) -> io::Result<()> {
        Ok(())
    }
}
