//! The files of a folder, as a command is handed them.

ghost use Rattle.std.specs.Prelude.{◌≡◌, ⊤, None, false, is_ok, not};

use crate::folder::Folder;
use file_access::{Extent, FileFault, Files};
use link_runner::{Failed, LinkReader, LinkWriter};
use std::alloc::Global;

/// A file that is read from its beginning.
#[derive(Drop)]
pub(crate) struct CaseReader<'f> {
    folder: &'f Folder,
    place: usize,
    at: usize,
}

impl<'f> LinkReader for CaseReader<'f> {
    ghost left = { λ reader. None };

    ghost failed = { λ reader. false };

    fn read_byte(&mut self) -> Result<Option<u8>, Failed> {
        let byte = self.folder.byte(self.place, self.at);
        self.at = self.at.saturating_add(1);
        Ok(byte)
    }

    fn has_failed(&self) -> bool {
        false
    }
}

/// A file that is written, until it takes no more.
#[derive(Drop)]
pub(crate) struct CaseWriter<'f> {
    folder: &'f Folder,
    place: usize,
    has_failed: bool,
}

impl<'f> LinkWriter for CaseWriter<'f> {
    ghost written = { λ writer. None };

    ghost failed = { λ writer. writer.has_failed };

    fn write_some(&mut self, bytes: &[u8]) -> Result<usize, Failed> {
        let Some(count) = self.folder.append(self.place, bytes) else {
            self.has_failed = true;
            return Err(Failed);
        };
        if count == 0 && !bytes.is_empty() {
            self.has_failed = true;
        }
        Ok(count)
    }

    fn has_failed(&self) -> bool {
        self.has_failed
    }
}

/// The files of a folder, of which nothing is claimed.
#[derive(Drop)]
pub(crate) struct CaseFiles<'f> {
    pub(crate) alloc: Global,
    pub(crate) folder: &'f Folder,
}

impl<'f> Files for CaseFiles<'f> {
    type Reader = CaseReader<'f>;

    type Writer = CaseWriter<'f>;

    ghost calls = { record {
      reads = λ before path extent bytes after. ⊤;
      opens = λ before path reader after. ⊤;
      creates = λ before path writer after. ⊤;
      closes = λ before writer closed after. ⊤;
    } };

    fn read(&mut self, path: &str, extent: Extent) -> Result<Vec<u8>, FileFault> {
        self.folder.beginning(self.alloc, path, extent)
    }

    fn open(&mut self, path: &str) -> Result<Box<Self::Reader>, FileFault> {
        let place = self.folder.place_of(path).ok_or(FileFault::Failed)?;
        let reader = CaseReader {
            folder: self.folder,
            place,
            at: 0,
        };
        Box::new(self.alloc, reader).map_err(|_| FileFault::Memory)
    }

    fn create(&mut self, path: &str) -> Result<Box<Self::Writer>, FileFault> {
        let place = self.folder.create(self.alloc, path)?;
        let writer = CaseWriter {
            folder: self.folder,
            place,
            has_failed: false,
        };
        Box::new(self.alloc, writer).map_err(|_| FileFault::Memory)
    }

    fn close(&mut self, writer: Box<Self::Writer>) -> Result<(), Failed>
        ensures { is_ok result ≡ not writer.entry.value.has_failed }
    {
        if writer.has_failed {
            return Err(Failed);
        }
        Ok(())
    }
}
