//! The command that cases try.

use file_access::Files;
use std::alloc::Global;
use std::io::Write;

/// A command, over the words, the files and the streams that it is handed.
pub trait Command {
    /// The exit status where all that was asked for was done.
    const DONE: u8;

    /// Does what these words ask for, and returns the exit status.
    fn act<F: Files, O: Write, E: Write, T: Write + Drop>(
        alloc: Global,
        words: &[&str],
        files: &mut F,
        out: &mut O,
        err: &mut E,
        trace: T,
    ) -> u8;
}
