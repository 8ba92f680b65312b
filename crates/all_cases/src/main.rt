//! Asks all layers what cases in text say that they return, and prints each case that differs.
//!
//! An argument is a kind of cases (`drafts`, `machine`, `language` or `commands`), or names a file with cases of the kind
//! before it. If the last one is a kind, its cases are read from standard input. The last line has the counts. The status is
//! 1 if a case differs or cannot be read. With the arguments `time CALL FILE TIMES` it repeats a call on the bytes of a file
//! instead, and prints a checksum of the results: those of `machine_cases` and of `language_cases`.
#![tactic(auto)]

use command_cases::{Command, CommandCases};
use conformance::{Calls, Failure, Kind, Report, try_or_repeat, try_text};
use file_access::Files;
use std::alloc::Global;
use std::io::{self, Write};
use std::process::ExitCode;

/// `tpm`, as `act` is it.
struct Tpm;

impl Command for Tpm {
    const DONE: u8 = tpm_actions::DONE;

    fn act<F: Files, O: Write, E: Write, T: Write + Drop>(
        alloc: Global,
        words: &[&str],
        files: &mut F,
        out: &mut O,
        err: &mut E,
        trace: T,
    ) -> u8 {
        tpm_actions::act(alloc, words, files, out, err, trace)
    }
}

/// The kinds of cases.
#[derive(Clone, Copy)]
enum About {
    Drafts,
    Machine,
    Language,
    Commands,
}

impl Kind for About {
    fn named(name: &str) -> Option<Self> {
        match name {
            "drafts" => Some(About::Drafts),
            "machine" => Some(About::Machine),
            "language" => Some(About::Language),
            "commands" => Some(About::Commands),
            _ => None,
        }
    }

    fn try_text(self, alloc: Global, name: &str, text: &str, report: &mut Report) {
        match self {
            About::Drafts => try_text::<draft_cases::Setting>(alloc, name, text, report),
            About::Machine => try_text::<machine_cases::Setting>(alloc, name, text, report),
            About::Language => try_text::<language_cases::Setting>(alloc, name, text, report),
            About::Commands => try_text::<CommandCases<Tpm>>(alloc, name, text, report),
        }
    }
}

/// The calls of both kinds that have some. No name is that of two calls.
struct AllCalls;

impl Calls for AllCalls {
    fn repeat(alloc: Global, name: &str, bytes: &[u8], times: u64) -> Result<u64, Failure> {
        match language_cases::Repeated::repeat(alloc, name, bytes, times) {
            Err(Failure::Unknown) => machine_cases::Repeated::repeat(alloc, name, bytes, times),
            repeated => repeated,
        }
    }
}

fn main(rt: HostRuntime) -> io::Result<ExitCode> {
    try_or_repeat::<About, AllCalls, HostRuntime>(&rt)
}
