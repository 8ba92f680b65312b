//! The calls that are repeated: on a file, on its module, on a machine, and on runs.

use crate::repeated_events::{PICK, SLICE, STEP, load_and_apply};
use crate::repeated_runs::{replay_repeatedly, run_repeatedly};
use certificate::Module;
use conformance::{Calls, Failure, mixed, refusal};
use module_format::{MEMORY, write};
use std::alloc::Global;
use verifier::verify;

/// A checksum with the budget and the number of rows in it.
fn summed(checksum: u64, module: &Module) -> u64 {
    let tables = module.tables();
    let rows = tables.procedures.len() + tables.labels.len() + tables.pars.len();
    mixed(
        mixed(checksum, tables.budget),
        (rows + tables.table_rows.len()) as u64,
    )
}

/// The budgets and the numbers of rows.
fn read_repeatedly(alloc: Global, file: &[u8], times: u64) -> Result<u64, Failure> {
    let mut checksum = 0;
    for _ in 0..times {
        match Module::read(alloc, file) {
            Ok(module) => checksum = summed(checksum, &module),
            Err(fault) => return Err(refusal(fault.number, MEMORY)),
        }
    }
    Ok(checksum)
}

/// The lengths of the written files.
fn write_repeatedly(alloc: Global, module: &Module, times: u64) -> Result<u64, Failure> {
    let mut checksum = 0;
    for _ in 0..times {
        match write(alloc, module.tables()) {
            Ok(written) => checksum = mixed(checksum, written.len() as u64),
            Err(_) => return Err(Failure::Memory),
        }
    }
    Ok(checksum)
}

/// The budgets.
fn verify_repeatedly(alloc: Global, module: &Module, times: u64) -> Result<u64, Failure> {
    let mut checksum = 0;
    for _ in 0..times {
        match verify(alloc, &*module) {
            Ok(verified) => checksum = mixed(checksum, verified.module().tables().budget),
            Err(refused) => return Err(refusal(refused.number, states::MEMORY)),
        }
    }
    Ok(checksum)
}

/// Repeats `replay` or `run` on a module, if it is accepted.
fn repeat_run(alloc: Global, name: &str, module: &Module, times: u64) -> Result<u64, Failure> {
    match verify(alloc, module) {
        Ok(verified) => match name {
            "replay" => replay_repeatedly(alloc, &verified, times),
            _ => run_repeatedly(alloc, &verified, times),
        },
        Err(refused) => Err(refusal(refused.number, states::MEMORY)),
    }
}

/// Repeats the call of this name on a module.
fn repeat_on(alloc: Global, name: &str, module: &Module, times: u64) -> Result<u64, Failure> {
    match name {
        "write" => write_repeatedly(alloc, module, times),
        "verify" => verify_repeatedly(alloc, module, times),
        "apply" => load_and_apply(alloc, module, STEP, times),
        "slice" => load_and_apply(alloc, module, SLICE, times),
        "pick" => load_and_apply(alloc, module, PICK, times),
        "replay" | "run" => repeat_run(alloc, name, module, times),
        _ => Err(Failure::Unknown),
    }
}

/// The calls.
pub struct Repeated;

impl Calls for Repeated {
    fn repeat(alloc: Global, name: &str, bytes: &[u8], times: u64) -> Result<u64, Failure> {
        if name == "read" {
            return read_repeatedly(alloc, bytes, times);
        }
        match Module::read(alloc, bytes) {
            Ok(module) => repeat_on(alloc, name, &module, times),
            Err(fault) => Err(refusal(fault.number, MEMORY)),
        }
    }
}
