//! A file that is written.

ghost use Rattle.file_access.specs.Storage.{storage_of};
ghost use Rattle.file_access.specs.Writing.{Writes};

use crate::failure::FileFailure;
use crate::files::{FileFault, Files};
use link_runner::write_whole;

/// Creates the file of this path and writes bytes to it. It is closed in any case.
pub fn write_file<'a, F: Files>(
    path: &'a str,
    bytes: &[u8],
    files: &mut F,
) -> Result<(), FileFailure<'a>>
    ensures { let storage = storage_of F.calls F.Reader.left F.Reader.failed F.Writer.written F.Writer.failed in
        Writes storage path.entry.now bytes.now files.old files.new result }
{
    let mut writer = match files.create(path) {
        Ok(writer) => writer,
        Err(FileFault::Failed) => return Err(FileFailure::Uncreated(path)),
        Err(FileFault::Memory) => return Err(FileFailure::Memory),
    };
    let written = write_whole(&mut writer, bytes);
    let closed = files.close(writer);
    match (written, closed) {
        (Ok(()), Ok(())) => Ok(()),
        _ => Err(FileFailure::Uncreated(path)),
    }
}
