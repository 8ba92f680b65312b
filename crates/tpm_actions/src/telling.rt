//! What is written on standard output.

ghost use Rattle.std.specs.Prelude.{◌≡◌};
ghost use Rattle.tpm_actions.specs.Acting.{Tells};

use crate::report::Failure;
use std::io::{ErrorKind, Write};

/// The most writes of one text, so that it is known to end. No run makes as many.
const MOST_WRITES: u64 = u64::MAX;

/// Writes the text, and repeats a write that was interrupted. Where it fails, a beginning is written.
pub fn tell<'a, O: Write>(text: &[u8], out: &mut O) -> Result<(), Failure<'a>>
    ensures { Tells (O.contents out.old) (O.contents out.new) text.now result }
{
    let mut written = 0;
    for _ in 0..MOST_WRITES {
        if written == text.len() {
            return out.flush().map_err(|_| Failure::Unwritten);
        }
        match out.write(&text[written..]) {
            Ok(0) => break,
            Ok(count) => written += count,
            Err(error) if error.kind() == ErrorKind::Interrupted => {}
            Err(_) => break,
        }
    }
    Err(Failure::Unwritten)
}
