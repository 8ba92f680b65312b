//! What is reported about a module or a source, and why nothing is, or why the module is refused.

ghost use Rattle.std.specs.Prelude.{◌≡◌, None, Some};
ghost use Rattle.tpm_actions.specs.Texts.{report_text, status_of};

use crate::refused::RefusedSource;
use compiler::CompileFault;
use file_access::FileFailure;
use module_format::FormatFault;
use std::alloc::AllocError;
use std::fmt;
use thiserror::Error;
use verifier::{Refusal, UpgradeFault};
use waiting_texts::FaultText;

/// All that was asked for was done.
pub const DONE: u8 = 0;
/// The module or the source is refused, or a process of its run is at fault.
pub const REFUSED: u8 = 1;
/// The words are no command, or they ask for help.
pub const MISUSED: u8 = 2;
/// A file, a link or standard output failed.
pub const FAILED: u8 = 3;
/// Memory ran out, other than in the reading or the verdict of a module, or in compiling a source.
pub const STARVED: u8 = 4;

/// What is reported about a module that was made, or that is certified.
#[derive(Clone, Copy)]
pub enum Report {
    /// How many bytes the file of the module has.
    Compiled { bytes: usize },
    /// How many bytes the file of the module in version 2 has.
    Upgraded { bytes: usize },
    /// The most bytes that a run executes.
    Accepted { budget: u64 },
}

impl fmt::Display for Report {
    ghost output = { λ report. Some (report_text report) };

    fn fmt<W: fmt::Write>(&self, f: &mut fmt::Formatter<W>) -> fmt::Result {
        match self {
            Report::Compiled { bytes } => write!(f, "compiled {bytes} bytes"),
            Report::Upgraded { bytes } => write!(f, "upgraded {bytes} bytes"),
            Report::Accepted { budget } => write!(f, "accepted, budget {budget}"),
        }
    }
}

/// Why the file is refused that is explained.
#[derive(Clone, Copy, Debug)]
pub enum RefusedFor {
    /// It is no module file.
    Malformed(FormatFault),
    /// Its module is not certified.
    Uncertified(Refusal),
    /// It is a source that becomes no module.
    Uncompiled(CompileFault),
}

impl fmt::Display for RefusedFor {
    fn fmt<W: fmt::Write>(&self, f: &mut fmt::Formatter<W>) -> fmt::Result {
        match self {
            RefusedFor::Malformed(fault) => write!(f, "C{} at {}", fault.number, fault.offset),
            RefusedFor::Uncertified(refusal) => {
                write!(f, "V{} at {}", refusal.number, refusal.offset)
            }
            RefusedFor::Uncompiled(fault) => write!(f, "{fault}"),
        }
    }
}

/// Why nothing is reported about a module or a source.
#[derive(Debug, Drop, Error)]
pub enum Failure<'a> {
    /// The file is no module file.
    #[error("refused C{} at {}", .0.number, .0.offset)]
    Malformed(FormatFault),
    /// The module is not certified.
    #[error("refused V{} at {}", .0.number, .0.offset)]
    Uncertified(Refusal),
    /// The file is refused, and this text explains why.
    #[error("refused {refusal}")]
    Explained { refusal: RefusedFor, text: String },
    /// A process of the run is at fault, and this text says how far the run came.
    #[error("{fault}")]
    Faulted { fault: FaultText, text: String },
    /// The source becomes no module.
    #[error("{0}")]
    Uncompiled(RefusedSource),
    /// The module is not upgraded.
    #[error("refused U{}", .0.number())]
    NotUpgraded(UpgradeFault),
    /// A file or a link failed, or memory ran out.
    #[error("{0}")]
    Stopped(FileFailure<'a>),
    /// The report was not written.
    #[error("cannot write standard output")]
    Unwritten,
}

impl From<FormatFault> for Failure<'_> {
    ghost use Rattle.tpm_actions.specs.declared.report.Failure.TheVariants as failures;

    ghost from_gives = { λ fault failure. failure ≡ failures.Malformed fault };

    fn from(fault: FormatFault) -> Self {
        Failure::Malformed(fault)
    }
}

impl From<Refusal> for Failure<'_> {
    ghost use Rattle.tpm_actions.specs.declared.report.Failure.TheVariants as failures;

    ghost from_gives = { λ refusal failure. failure ≡ failures.Uncertified refusal };

    fn from(refusal: Refusal) -> Self {
        Failure::Uncertified(refusal)
    }
}

impl From<CompileFault> for Failure<'_> {
    ghost use Rattle.tpm_actions.specs.declared.report.Failure.TheVariants as failures;

    ghost from_gives = { λ fault failure. failure ≡ failures.Uncompiled (record { fault = fault; reason = None }) };

    fn from(fault: CompileFault) -> Self {
        Failure::Uncompiled(RefusedSource {
            fault,
            reason: None,
        })
    }
}

impl From<UpgradeFault> for Failure<'_> {
    ghost use Rattle.tpm_actions.specs.declared.report.Failure.TheVariants as failures;

    ghost from_gives = { λ fault failure. failure ≡ failures.NotUpgraded fault };

    fn from(fault: UpgradeFault) -> Self {
        Failure::NotUpgraded(fault)
    }
}

impl From<AllocError> for Failure<'_> {
    ghost use Rattle.tpm_actions.specs.declared.report.Failure.TheVariants as failures;
    ghost use Rattle.file_access.specs.declared.failure.FileFailure.TheVariants as stops;

    ghost from_gives = { λ _ failure. failure ≡ failures.Stopped stops.Memory };

    fn from(_error: AllocError) -> Self {
        Failure::Stopped(FileFailure::Memory)
    }
}

impl<'a> From<FileFailure<'a>> for Failure<'a> {
    ghost use Rattle.tpm_actions.specs.declared.report.Failure.TheVariants as failures;

    ghost from_gives = { λ why failure. failure ≡ failures.Stopped why };

    fn from(why: FileFailure<'a>) -> Self {
        Failure::Stopped(why)
    }
}

impl Failure<'_> {
    /// The exit status.
    pub fn status(&self) -> u8
        ensures { result ≡ status_of self.now }
    {
        match self {
            Failure::Malformed(_)
            | Failure::Uncertified(_)
            | Failure::Explained { .. }
            | Failure::Faulted { .. }
            | Failure::Uncompiled(_)
            | Failure::NotUpgraded(_) => REFUSED,
            Failure::Stopped(FileFailure::Memory) => STARVED,
            Failure::Stopped(_) | Failure::Unwritten => FAILED,
        }
    }
}
