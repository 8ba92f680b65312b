//! The answers of upgrading a module.

use certificate::ModuleFile;
use conformance::Answer;
use module_cases::put_fault;
use module_format::FormatFault;
use std::alloc::Global;
use verifier::{UpgradeFault, upgrade};

/// The most bytes of the new file that are said.
const MOST_SAID: usize = 256;

/// Why there is no upgraded file.
#[derive(Clone, Copy)]
pub(crate) enum NotUpgraded {
    /// The bytes are no module.
    Format(FormatFault),
    Fault(UpgradeFault),
}

/// The file that a file is upgraded to.
pub(crate) fn upgraded(alloc: Global, file: &[u8]) -> Result<Vec<u8>, NotUpgraded> {
    match ModuleFile::read(alloc, file) {
        Ok(module) => upgrade(alloc, &module).map_err(NotUpgraded::Fault),
        Err(fault) => Err(NotUpgraded::Format(fault)),
    }
}

/// The first bytes of the file that a file is upgraded to, and its length; or why there is none.
pub(crate) fn put_upgraded(alloc: Global, file: &[u8], out: &mut Answer) {
    match upgraded(alloc, file) {
        Ok(bytes) => {
            for byte in bytes.iter().take(MOST_SAID) {
                out.hexadecimal(*byte);
            }
            out.put(" ");
            out.great(bytes.len() as u64);
        }
        Err(NotUpgraded::Format(fault)) => put_fault(fault, out),
        Err(NotUpgraded::Fault(fault)) => {
            out.put("U");
            out.great(u64::from(fault.number()));
        }
    }
}
