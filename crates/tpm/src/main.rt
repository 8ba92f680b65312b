//! `tpm`: compiles occam programs, and verifies, explains, runs, debugs, lists and upgrades transputer modules.
#![tactic(auto)]

use command_line::{WordFault, texts};
use file_access::SystemFiles;
use std::io::{self, Input};
use std::process::ExitCode;
use std::rt::{Env, Files};
use tpm_actions::{MISUSED, STARVED, act};

/// Hands the words and the files of the system to `act`, and the two streams.
fn run<R: Env + Files + Input + AllocGlobal>(
    rt: &R,
    out: &impl Print,
    err: &impl Print,
) -> Result<u8, WordFault> {
    let alloc = rt.alloc();
    let texts = texts(rt)?;
    let mut words = Vec::new(alloc);
    for text in &texts {
        words.push(text.as_str())?;
    }
    let mut files = SystemFiles::new(rt, out);
    let (mut out, mut shown) = (io::writer(out), io::writer(err));
    let trace = io::writer(err);
    Ok(act(
        alloc,
        words.as_slice(),
        &mut files,
        &mut out,
        &mut shown,
        trace,
    ))
}

fn main(rt: HostRuntime) -> ExitCode {
    let status = match run(&rt, &rt.stdout(), &rt.stderr()) {
        Ok(status) => status,
        Err(fault) => {
            let _ = eprintln!(rt; "{fault}");
            match fault {
                WordFault::OutOfMemory => STARVED,
                WordFault::NoText { .. } => MISUSED,
            }
        }
    };
    ExitCode::from(status)
}
