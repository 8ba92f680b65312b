//! What a command line says.

ghost use Rattle.std.specs.Prelude.{◌≡◌};
ghost use Rattle.command_line.specs.LineFaults.{FaultOf};

use crate::links::LinkPaths;
use clap::error::ErrorKind;
use std::alloc::AllocError;
use std::fmt;
use thiserror::Error;

/// What a command line asks for.
#[derive(Clone, Copy)]
pub enum Line<'a> {
    /// The module of the source in a file, written to another file.
    Compile {
        source: &'a str,
        out: &'a str,
    },
    /// The module in a file of version 1, written to another file in version 2.
    Upgrade {
        path: &'a str,
        out: &'a str,
    },
    /// A run of the module or the source in a file on the machine that checks each rule, with the files of these paths
    /// on its links, up to a number of bytes if that is given, as a text. Each instruction is written before it is
    /// executed, if that is wanted.
    Debug {
        path: &'a str,
        inputs: LinkPaths<'a>,
        outputs: LinkPaths<'a>,
        bytes: Option<&'a str>,
        trace: bool,
    },
    /// What is asked of the module in the file of this path.
    Ask {
        path: &'a str,
        question: Question<'a>,
    },
}

/// What is asked of a module.
#[derive(Clone, Copy)]
pub enum Question<'a> {
    /// Whether it is certified.
    Verdict,
    /// A run of it, with the files of these paths on its links.
    Run {
        inputs: LinkPaths<'a>,
        outputs: LinkPaths<'a>,
    },
    /// The listing of its code.
    Listing,
    /// The explanation of the verdict on it.
    Explanation,
}

/// The text for the user of words that are no command, or that ask for help, with its line feed.
#[derive(Debug, Drop, Error)]
#[error("{error}")]
pub struct Usage {
    error: clap::Error,
}

/// Why what is asked for does not fit together.
#[derive(Clone, Copy, Debug, PartialEq, Eq)]
pub enum Misfit {
    /// The file that is written is the one that is read.
    SameFile,
    /// Two output links have one path.
    SameOutputs,
    /// Two input links are standard input.
    SameInputs,
    /// The number of bytes is none below 2^64.
    NoNumber,
}

impl fmt::Display for Misfit {
    fn fmt<W: fmt::Write>(&self, f: &mut fmt::Formatter<W>) -> fmt::Result {
        f.write_str(match self {
            Misfit::SameFile => "the file that is written is the one that is read",
            Misfit::SameOutputs => "two output links have one path",
            Misfit::SameInputs => "two input links are standard input",
            Misfit::NoNumber => "--bytes wants a number below 2^64",
        })
    }
}

/// Why a command line asks for nothing.
#[derive(Debug, Drop, Error)]
pub enum LineFault {
    /// The words are no command, or they ask for help.
    #[error("{0}")]
    Usage(Usage),
    /// The parts of the command do not fit together.
    #[error("error: {0}\n")]
    Misfit(Misfit),
    /// Memory ran out.
    #[error("out of memory\n")]
    Memory,
}

impl From<AllocError> for LineFault {
    ghost use Rattle.command_line.specs.declared.lines.LineFault.TheVariants as faults;

    ghost from_gives = { λ _ fault. fault ≡ faults.Memory };

    fn from(_error: AllocError) -> LineFault {
        LineFault::Memory
    }
}

impl From<clap::Error> for LineFault {
    ghost from_gives = { FaultOf };

    fn from(error: clap::Error) -> LineFault {
        match error.kind() {
            ErrorKind::OutOfMemory => LineFault::Memory,
            _ => LineFault::Usage(Usage { error }),
        }
    }
}
