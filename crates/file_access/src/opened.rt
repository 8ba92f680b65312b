//! Open files. A regular file goes through a buffer; for writing only if all that are read are regular, too. A pipe, a
//! terminal or a device does not: a byte that is written there is there at once, and none is taken before it is asked
//! for.

ghost use Rattle.std.specs.Prelude.{◌≡◌, IfOk};
ghost use Rattle.file_access.specs.Opened.{is_regular, reader_left, writer_held};

use crate::files::FileFault;
use std::alloc::Global;
use std::fs::OpenFile;
use std::io::{self, BufReader, BufWriter, Read, Write};

/// A file that is read, or standard input.
#[derive(Drop)]
pub enum FileReader<F, I> {
    Regular(BufReader<F>),
    Other(F),
    Standard(I),
}

impl<F: Read + OpenFile + Drop, I: Read> FileReader<F, I> {
    /// The open file, of which no byte is taken yet. A folder cannot be read.
    pub fn new(alloc: Global, file: F) -> Result<Self, FileFault>
        ensures { IfOk result (λ reader. reader_left F.remaining I.remaining reader ≡ F.remaining file) }
    {
        let metadata = file.metadata()?;
        if metadata.is_dir() {
            Err(FileFault::Failed)
        } else if metadata.is_file() {
            Ok(FileReader::Regular(BufReader::new(alloc, file)?))
        } else {
            Ok(FileReader::Other(file))
        }
    }

    /// Whether it is a regular file.
    pub fn is_regular(&self) -> bool
        ensures { result ≡ is_regular self.now }
    {
        matches!(self, FileReader::Regular(_))
    }
}

impl<F: Read, I: Read> Read for FileReader<F, I> {
    ghost remaining = { reader_left F.remaining I.remaining };

    fn read(&mut self, buffer: &mut [u8]) -> io::Result<usize> {
        match self {
            FileReader::Regular(file) => file.read(buffer),
            FileReader::Other(file) => file.read(buffer),
            FileReader::Standard(stream) => stream.read(buffer),
        }
    }
}

/// A file that is written, or standard output.
#[derive(Drop)]
pub enum FileWriter<F: Write + Drop, O: Write + Drop> {
    Regular(BufWriter<F>),
    Other(F),
    Standard(O),
}

impl<F: Write + OpenFile + Drop, O: Write + Drop> FileWriter<F, O> {
    /// The open file, to which no byte is written yet. A regular file goes through a buffer if that may be.
    pub fn new(alloc: Global, file: F, may_wait: bool) -> Result<Self, FileFault>
        ensures { IfOk result (λ writer. writer_held F.contents O.contents writer ≡ F.contents file) }
    {
        if may_wait && file.metadata()?.is_file() {
            Ok(FileWriter::Regular(BufWriter::new(alloc, file)?))
        } else {
            Ok(FileWriter::Other(file))
        }
    }
}

impl<F: Write + Drop, O: Write + Drop> Write for FileWriter<F, O> {
    ghost contents = { writer_held F.contents O.contents };

    fn write(&mut self, bytes: &[u8]) -> io::Result<usize> {
        match self {
            FileWriter::Regular(file) => file.write(bytes),
            FileWriter::Other(file) => file.write(bytes),
            FileWriter::Standard(stream) => stream.write(bytes),
        }
    }

    fn flush(&mut self) -> io::Result<()> {
        match self {
            FileWriter::Regular(file) => file.flush(),
            FileWriter::Other(file) => file.flush(),
            FileWriter::Standard(stream) => stream.flush(),
        }
    }
}
