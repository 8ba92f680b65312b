//! The answer of reading a file.

use certificate::Module;
use conformance::Answer;
use module_format::{FormatFault, write};
use std::alloc::Global;

/// What is said of a file that is read, valid and written back byte for byte.
pub const READ: &str = "ok";

/// A fault of a file as a case says it.
pub fn put_fault(fault: FormatFault, out: &mut Answer) {
    out.fault("C", fault.number, fault.offset as u64);
}

/// `ok` if the file is read, valid and written back byte for byte, or else the fault.
pub fn put_read(alloc: Global, file: &[u8], out: &mut Answer) {
    match reading(alloc, file) {
        Ok(validity) => out.put(validity),
        Err(fault) => put_fault(fault, out),
    }
}

/// What comes of reading a file: `READ` if it is valid and written back byte for byte.
pub fn reading(alloc: Global, file: &[u8]) -> Result<&'static str, FormatFault> {
    match Module::read(alloc, file) {
        Ok(module) => Ok(validity(alloc, &module, file)),
        Err(fault) => Err(fault),
    }
}

fn validity(alloc: Global, module: &Module, file: &[u8]) -> &'static str {
    if !module.tables().keeps() {
        return "not valid";
    }
    match write(alloc, module.tables()) {
        Ok(written) if written.as_slice() == file => READ,
        Ok(_) => "written otherwise",
        Err(_) => "out of memory",
    }
}
