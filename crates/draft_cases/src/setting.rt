//! What the statements before a question say.

use module_cases::CaseFile;
use std::alloc::Global;

/// What is asked about: a file.
#[derive(Drop)]
pub struct Setting {
    pub(crate) alloc: Global,
    pub(crate) file: CaseFile,
}

impl Setting {
    pub(crate) fn new(alloc: Global) -> Self {
        Setting {
            alloc,
            file: CaseFile::new(alloc),
        }
    }
}
