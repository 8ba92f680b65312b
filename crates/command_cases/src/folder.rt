//! The folder in which a command line is run, in memory.

ghost use Rattle.std.specs.Prelude.{◌≤◌, IfSome, length};

use file_access::{Extent, FileFault, read_beginning};
use std::alloc::Global;
use std::cell::RefCell;

/// A file with its name.
#[derive(Drop)]
pub(crate) struct NamedFile {
    pub(crate) name: String,
    pub(crate) bytes: Vec<u8>,
}

/// Files, each of which takes so many bytes at most.
#[derive(Drop)]
pub(crate) struct Folder {
    files: RefCell<Vec<NamedFile>>,
    most: usize,
}

/// A file of this name with these bytes.
pub(crate) fn named(alloc: Global, name: &str, bytes: &[u8]) -> Option<NamedFile> {
    let mut file = NamedFile {
        name: String::new(alloc),
        bytes: Vec::new(alloc),
    };
    file.name.push_str(name).ok()?;
    file.bytes.extend_from_slice(bytes).ok()?;
    Some(file)
}

/// The place of the file of this name.
fn place_among(files: &[NamedFile], name: &str) -> Option<usize> {
    for (place, file) in files.iter().enumerate() {
        if file.name.as_str() == name {
            return Some(place);
        }
    }
    None
}

/// Whether a file of this name can be made here: it is in no other folder, and not this one.
fn is_name(name: &str) -> bool {
    !name.is_empty() && name != "." && !name.contains('/')
}

impl Folder {
    /// With no file.
    pub(crate) fn new(alloc: Global, most: usize) -> Self {
        Folder {
            files: RefCell::new(Vec::new(alloc)),
            most,
        }
    }

    /// The place of the file of this name.
    pub(crate) fn place_of(&self, name: &str) -> Option<usize> {
        let files = self.files.try_borrow().ok()?;
        place_among(&files, name)
    }

    /// Puts a file with these bytes, however many, there.
    pub(crate) fn put(&self, alloc: Global, name: &str, bytes: &[u8]) -> Option<()> {
        let mut files = self.files.try_borrow_mut().ok()?;
        if let Some(place) = place_among(&files, name) {
            let file = files.get_mut(place)?;
            file.bytes.clear();
            return file.bytes.extend_from_slice(bytes).ok();
        }
        files.push(named(alloc, name, bytes)?).ok()
    }

    /// Makes a file, or empties the one that is there, and returns its place.
    pub(crate) fn create(&self, alloc: Global, name: &str) -> Result<usize, FileFault> {
        if !is_name(name) {
            return Err(FileFault::Failed);
        }
        self.put(alloc, name, &[]).ok_or(FileFault::Memory)?;
        self.place_of(name).ok_or(FileFault::Failed)
    }

    /// Appends bytes to a file, as many as it takes, and returns how many.
    pub(crate) fn append(&self, place: usize, bytes: &[u8]) -> Option<usize>
        ensures { IfSome result (λ count. count ≤ length bytes.now) }
    {
        let mut files = self.files.try_borrow_mut().ok()?;
        let file = files.get_mut(place)?;
        let room = self.most.saturating_sub(file.bytes.len());
        let count = bytes.len().min(room);
        file.bytes.extend_from_slice(&bytes[..count]).ok()?;
        Some(count)
    }

    /// A byte of a file, if it has so many.
    pub(crate) fn byte(&self, place: usize, at: usize) -> Option<u8> {
        let files = self.files.try_borrow().ok()?;
        files.get(place)?.bytes.get(at).copied()
    }

    /// What is read of the file of this name.
    pub(crate) fn beginning(
        &self,
        alloc: Global,
        name: &str,
        extent: Extent,
    ) -> Result<Vec<u8>, FileFault> {
        let files = self.files.try_borrow().map_err(|_| FileFault::Failed)?;
        let place = place_among(&files, name).ok_or(FileFault::Failed)?;
        let file = files.get(place).ok_or(FileFault::Failed)?;
        Ok(read_beginning(alloc, file.bytes.as_slice(), extent)?)
    }

    /// Whether the file of this name is there and has these bytes.
    pub(crate) fn holds(&self, name: &str, bytes: &[u8]) -> bool {
        match self.files.try_borrow() {
            Ok(files) => files.iter().any(|file| file.name.as_str() == name
                && file.bytes.as_slice() == bytes),
            Err(_) => false,
        }
    }
}
