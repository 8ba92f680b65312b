//! What takes the bytes of an output link.

ghost use Rattle.std.specs.Prelude.{◌≡◌, ℕ, Bool, true, false, List, Option};
ghost use Rattle.link_runner.specs.Devices.{Accepts};

use crate::device::Failed;
use std::io::Write;

/// A writer with a flag that a call sets exactly if it fails. A call that takes no byte of some has failed.
pub trait LinkWriter {
    /// The bytes that were written, if they are known.
    ghost written: { Self → Option (List ℕ) };

    /// Whether a call has failed.
    ghost failed: { Self → Bool };

    /// Writes bytes of the front of the slice, and returns how many. A call that fails writes none.
    fn write_some(&mut self, bytes: &[u8]) -> Result<usize, Failed>
        ensures { Accepts (written self.old) (failed self.old) bytes.now result (written self.new) (failed self.new) };

    /// Whether a call has failed.
    fn has_failed(&self) -> bool
        ensures { result ≡ failed self.now };
}

/// A writer over any writer. Each error of that one is a failure, an interrupted write too: nothing is tried again.
#[derive(Drop)]
pub struct Writing<W> {
    writer: W,
    failed: bool,
}

impl<W: Write> Writing<W> {
    /// Nothing has failed yet.
    pub fn new(writer: W) -> Self
        ensures writer { result.writer ≡ writer }
        ensures failed { result.failed ≡ false }
    {
        Writing {
            writer,
            failed: false,
        }
    }

    /// The writer.
    pub fn into_inner(self) -> W
        ensures { result ≡ self.writer }
    {
        self.writer
    }
}

impl<W: Write> LinkWriter for Writing<W> {
    ghost written = { λ w. W.contents w.writer };

    ghost failed = { λ w. w.failed };

    fn write_some(&mut self, bytes: &[u8]) -> Result<usize, Failed> {
        match self.writer.write(bytes) {
            Ok(count) => {
                if count == 0 && !bytes.is_empty() {
                    self.failed = true;
                }
                Ok(count)
            }
            Err(_) => {
                self.failed = true;
                Err(Failed)
            }
        }
    }

    fn has_failed(&self) -> bool {
        self.failed
    }
}
