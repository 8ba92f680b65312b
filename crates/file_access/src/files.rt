//! Files by path.

ghost use Rattle.std.specs.Prelude.{◌≡◌, true, false, Ok, Err, MatchResult, IfOk, is_ok};
ghost use Rattle.std.specs.Global.{Box};
ghost use Rattle.file_access.specs.FileCalls.{FileCalls};

use crate::extent::{Extent, read_beginning};
use crate::opened::{FileReader, FileWriter};
use command_line::is_stream;
use link_runner::{Failed, LinkReader, LinkWriter, Reading, Writing};
use std::io::{self, Write};
use std::{fs, rt};

/// Why a file was not read, opened or created.
#[derive(Clone, Copy)]
pub enum FileFault {
    /// The file is not there, or it failed.
    Failed,
    /// Memory ran out.
    Memory,
}

impl From<io::Error> for FileFault {
    fn from(error: io::Error) -> Self {
        match error.kind() {
            io::ErrorKind::OutOfMemory => FileFault::Memory,
            _ => FileFault::Failed,
        }
    }
}

/// Files that are named by paths. Their implementation keeps the allocator for what they read.
pub trait Files {
    /// A file that is read byte by byte.
    type Reader: LinkReader + Drop;

    /// A file that is written.
    type Writer: LinkWriter + Drop;

    /// What its calls can come to.
    ghost calls: { FileCalls Self (Box Self.Reader) (Box Self.Writer) };

    /// The bytes of the file at this path, as far as this goes: what `read_beginning` reads of them.
    fn read(&mut self, path: &str, extent: Extent) -> Result<Vec<u8>, FileFault>
        ensures { MatchResult result (λ bytes. calls.reads self.old path.now extent (Ok bytes.items) self.new)
            (λ fault. calls.reads self.old path.now extent (Err fault) self.new) };

    /// The file at this path, to be read from its beginning. Nothing has failed yet.
    fn open(&mut self, path: &str) -> Result<Box<Self::Reader>, FileFault>
        ensures gives { calls.opens self.old path.now result self.new }
        ensures fresh { IfOk result (λ reader. Self.Reader.failed reader.value ≡ false) };

    /// The file at this path, emptied, or made if there is none. Nothing has failed yet.
    fn create(&mut self, path: &str) -> Result<Box<Self::Writer>, FileFault>
        ensures gives { calls.creates self.old path.now result self.new }
        ensures fresh { IfOk result (λ writer. Self.Writer.failed writer.value ≡ false) };

    /// Takes the writer back, and writes what it has kept.
    fn close(&mut self, writer: Box<Self::Writer>) -> Result<(), Failed>
        ensures { calls.closes self.old writer (is_ok result) self.new };
}

/// The files that a runtime opens, of which nothing is known, and the standard streams, whose path is `-`. What is done
/// with them leaves the runtime and standard output as they were.
#[derive(Drop)]
pub struct SystemFiles<'a, R, P> {
    runtime: &'a R,
    output: &'a P,
    /// Whether every file that was opened is a regular one. If one is not, nothing that is written waits in a buffer.
    are_regular: bool,
}

impl<'a, R, P> SystemFiles<'a, R, P> {
    /// The files of the runtime and this standard output. No file is opened yet.
    pub fn new(runtime: &'a R, output: &'a P) -> Self
        ensures { result ≡ record { runtime = runtime.entry; output = output.entry; are_regular = true } }
    {
        SystemFiles {
            runtime,
            output,
            are_regular: true,
        }
    }
}

impl<'a, R: rt::Files + AllocGlobal + io::Input, P: Print> SystemFiles<'a, R, P> {
    /// The file of this path, or standard input.
    fn reader(&self, path: &str) -> Result<FileReader<R::File, R::Reader>, FileFault> {
        if is_stream(path) {
            return Ok(FileReader::Standard(self.runtime.reader()));
        }
        let file = fs::File::open(self.runtime, path)?;
        FileReader::new(self.runtime.alloc(), file)
    }

    /// The file of this path, emptied, or made if there is none; or standard output, which is not emptied.
    fn writer(&self, path: &str) -> Result<FileWriter<R::File, io::Printer<'a, P>>, FileFault> {
        if is_stream(path) {
            return Ok(FileWriter::Standard(io::writer(self.output)));
        }
        let file = fs::File::create(self.runtime, path)?;
        FileWriter::new(self.runtime.alloc(), file, self.are_regular)
    }
}

impl<'a, R: rt::Files + AllocGlobal + io::Input, P: Print> Files for SystemFiles<'a, R, P> {
    type Reader = Reading<FileReader<R::File, R::Reader>>;

    type Writer = Writing<FileWriter<R::File, io::Printer<'a, P>>>;

    ghost calls = { record {
      reads = λ before path extent bytes after. after ≡ before;
      opens = λ before path reader after. after ≡ record before { are_regular = after.are_regular };
      creates = λ before path writer after. after ≡ before;
      closes = λ before writer closed after. after ≡ before;
    } };

    fn read(&mut self, path: &str, extent: Extent) -> Result<Vec<u8>, FileFault> {
        let file = fs::File::open(self.runtime, path)?;
        Ok(read_beginning(self.runtime.alloc(), file, extent)?)
    }

    fn open(&mut self, path: &str) -> Result<Box<Self::Reader>, FileFault> {
        let file = self.reader(path)?;
        self.are_regular = self.are_regular && file.is_regular();
        Box::new(self.runtime.alloc(), Reading::new(file)).map_err(|_| FileFault::Memory)
    }

    fn create(&mut self, path: &str) -> Result<Box<Self::Writer>, FileFault> {
        let file = self.writer(path)?;
        Box::new(self.runtime.alloc(), Writing::new(file)).map_err(|_| FileFault::Memory)
    }

    fn close(&mut self, writer: Box<Self::Writer>) -> Result<(), Failed>
        ensures { self.new ≡ self.old }
    {
        Box::into_inner(writer)
            .into_inner()
            .flush()
            .map_err(|_| Failed)
    }
}
