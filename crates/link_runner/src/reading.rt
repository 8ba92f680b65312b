//! What gives bytes to an input link.

ghost use Rattle.std.specs.Prelude.{◌≡◌, ℕ, Bool, true, false, List, Option};
ghost use Rattle.link_runner.specs.Devices.{Gives};

use crate::device::Failed;
use std::io::Read;

/// A reader of single bytes, with a flag that a call sets exactly if it fails.
pub trait LinkReader {
    /// The bytes that it has not given yet, if they are known.
    ghost left: { Self → Option (List ℕ) };

    /// Whether a call has failed.
    ghost failed: { Self → Bool };

    /// The next byte, or `None` at the end. A call that fails takes no byte.
    fn read_byte(&mut self) -> Result<Option<u8>, Failed>
        ensures { Gives (left self.old) (failed self.old) result (left self.new) (failed self.new) };

    /// Whether a call has failed.
    fn has_failed(&self) -> bool
        ensures { result ≡ failed self.now };
}

/// A reader of single bytes over any reader. Each error of that one is a failure, an interrupted read too: nothing is
/// tried again.
#[derive(Drop)]
pub struct Reading<R> {
    reader: R,
    failed: bool,
}

impl<R: Read> Reading<R> {
    /// Nothing has failed yet.
    pub fn new(reader: R) -> Self
        ensures reader { result.reader ≡ reader }
        ensures failed { result.failed ≡ false }
    {
        Reading {
            reader,
            failed: false,
        }
    }
}

impl<R: Read> LinkReader for Reading<R> {
    ghost left = { λ r. R.remaining r.reader };

    ghost failed = { λ r. r.failed };

    fn read_byte(&mut self) -> Result<Option<u8>, Failed> {
        let mut byte = [0];
        match self.reader.read(&mut byte) {
            Ok(0) => Ok(None),
            Ok(_) => Ok(Some(byte[0])),
            Err(_) => {
                self.failed = true;
                Err(Failed)
            }
        }
    }

    fn has_failed(&self) -> bool {
        self.failed
    }
}
