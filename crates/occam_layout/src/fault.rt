//! Why a source has no lines of tokens.

ghost use Rattle.std.specs.Prelude.{◌≡◌};
ghost use Rattle.occam_layout.specs.declared.fault.ScanError.TheVariants.{Memory};
ghost use Rattle.occam_layout.specs.Fault.{number_of, refused, scan_refused};

use std::alloc::AllocFailed;

/// A line is indented by an odd number of spaces.
pub const ODD_INDENTATION: u8 = 1;
/// A line is more than one level deeper than the line before it, or the first one isn't at level 0.
pub const TOO_DEEP: u8 = 2;
/// A byte is no character of a source, or it begins no token.
pub const CHARACTER: u8 = 3;
/// A literal is written wrongly or is out of range.
pub const LITERAL: u8 = 4;
/// The source has more bytes or more lines than are read.
pub const TOO_LARGE: u8 = 7;
/// Memory ran out.
pub const MEMORY: u8 = 20;

/// Why a source was refused, and where.
#[derive(Clone, Copy, Debug, PartialEq, Eq)]
pub struct LayoutFault {
    /// One of the named numbers of this crate.
    pub number: u8,
    /// The line at fault, counted from 1. 0 if memory ran out or there are too many bytes.
    pub line: u32,
}

/// What is wrong within one line, or with the size of the source.
#[derive(Clone, Copy)]
pub(crate) enum Fault {
    OddIndentation,
    TooDeep,
    Character,
    Literal,
    TooLarge,
}

impl Fault {
    fn number(self) -> u8
        ensures { result ≡ number_of self }
    {
        match self {
            Fault::OddIndentation => ODD_INDENTATION,
            Fault::TooDeep => TOO_DEEP,
            Fault::Character => CHARACTER,
            Fault::Literal => LITERAL,
            Fault::TooLarge => TOO_LARGE,
        }
    }

    /// This fault, at a line.
    pub(crate) fn at(self, line: u32) -> LayoutFault
        ensures { result ≡ refused self line }
    {
        LayoutFault {
            number: self.number(),
            line,
        }
    }
}

impl<T: Drop> From<AllocFailed<T>> for LayoutFault {
    ghost use Rattle.occam_layout.specs.Fault.{out_of_memory};

    ghost from_gives = { λ _ e. e ≡ out_of_memory };

    fn from(_e: AllocFailed<T>) -> LayoutFault {
        OUT_OF_MEMORY
    }
}

/// Memory ran out, which is no line's fault.
const OUT_OF_MEMORY: LayoutFault = LayoutFault {
    number: MEMORY,
    line: 0,
};

/// Why a line gave no tokens.
#[derive(Drop)]
pub(crate) enum ScanError {
    Memory,
    Fault(Fault),
}

impl ScanError {
    /// This error, as a fault at a line.
    pub(crate) fn at(self, line: u32) -> LayoutFault
        ensures { result ≡ scan_refused self line }
    {
        match self {
            ScanError::Memory => OUT_OF_MEMORY,
            ScanError::Fault(fault) => fault.at(line),
        }
    }
}

impl<T: Drop> From<AllocFailed<T>> for ScanError {
    ghost from_gives = { λ _ e. e ≡ Memory };

    fn from(_e: AllocFailed<T>) -> ScanError {
        ScanError::Memory
    }
}
