//! Files by path: those of the system, how far one is read, and how one is written.
#![tactic(auto)]

mod extent;
mod failure;
mod files;
mod opened;
mod writing;

pub use extent::{Extent, MAGIC_BYTES, begins_as_module, read_beginning};
pub use failure::FileFailure;
pub use files::{FileFault, Files, SystemFiles};
pub use writing::write_file;
