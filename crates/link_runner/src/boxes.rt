//! Readers and writers in boxes: a call goes to the one inside.

use crate::device::Failed;
use crate::reading::LinkReader;
use crate::writing::LinkWriter;

impl<R: LinkReader> LinkReader for Box<R> {
    ghost left = { λ b. R.left b.value };

    ghost failed = { λ b. R.failed b.value };

    fn read_byte(&mut self) -> Result<Option<u8>, Failed> {
        self.as_mut().read_byte()
    }

    fn has_failed(&self) -> bool {
        self.as_ref().has_failed()
    }
}

impl<W: LinkWriter> LinkWriter for Box<W> {
    ghost written = { λ b. W.written b.value };

    ghost failed = { λ b. W.failed b.value };

    fn write_some(&mut self, bytes: &[u8]) -> Result<usize, Failed> {
        self.as_mut().write_some(bytes)
    }

    fn has_failed(&self) -> bool {
        self.as_ref().has_failed()
    }
}
