//! Why a file is no module.

ghost use Rattle.std.specs.Prelude.{◌≡◌};
ghost use Rattle.module_format.specs.declared.fault.ReadError.TheVariants.{Memory, Fault};
ghost use Rattle.module_format.specs.Reading.{number_of, fault, out_of_memory, fault_of};

use std::alloc::AllocError;

/// A rule of the format that a file breaks.
#[derive(Clone, Copy)]
pub(crate) enum FormatFaultKind {
    /// Fewer than four bytes, or another magic.
    Magic,
    /// The file ends within a field.
    Truncated,
    /// Rows or items that do not rise, or that overlap.
    Order,
    /// A value that is not allowed.
    Range,
    /// Bytes after the last row.
    LeftOver,
    /// A number above a limit of the format.
    Limit,
}

impl FormatFaultKind {
    /// The number by which the fault is reported.
    fn number(self) -> u8
        ensures { result ≡ number_of self }
    {
        match self {
            FormatFaultKind::Magic => MAGIC,
            FormatFaultKind::Truncated => TRUNCATED,
            FormatFaultKind::Order => ORDER,
            FormatFaultKind::Range => RANGE,
            FormatFaultKind::LeftOver => LEFT_OVER,
            FormatFaultKind::Limit => LIMIT,
        }
    }
}

/// The number of a file with fewer than four bytes, or another magic.
pub const MAGIC: u8 = 1;
/// The number of a file that ends within a field.
pub const TRUNCATED: u8 = 2;
/// The number of rows or items that do not rise, or that overlap.
pub const ORDER: u8 = 3;
/// The number of a value that is not allowed.
pub const RANGE: u8 = 4;
/// The number of bytes after the last row.
pub const LEFT_OVER: u8 = 5;
/// The number of a value above a limit of the format.
pub const LIMIT: u8 = 6;
/// The number of running out of memory.
pub const MEMORY: u8 = 7;

/// The fault of running out of memory.
const NO_MEMORY: FormatFault = FormatFault {
    number: MEMORY,
    offset: 0,
};

/// The fault that is reported of a file: the first in the order of its fields. References are checked once all rows
/// are read.
#[derive(Clone, Copy, Debug, PartialEq, Eq)]
pub struct FormatFault {
    /// Which of the seven faults, C1 to C7.
    pub number: u8,
    /// Where: the first byte of the field. For `TRUNCATED` it is the file's length, for `LEFT_OVER`
    /// the first byte left over, for `MEMORY` 0.
    pub offset: usize,
}

impl FormatFault {
    /// What is reported of a fault at an offset.
    pub(crate) fn new(kind: FormatFaultKind, offset: usize) -> FormatFault
        ensures { result ≡ fault kind offset }
    {
        FormatFault {
            number: kind.number(),
            offset,
        }
    }
}

impl From<ReadError> for FormatFault {
    ghost from_gives = { λ e fault. fault ≡ fault_of e };

    fn from(e: ReadError) -> FormatFault {
        match e {
            ReadError::Memory => NO_MEMORY,
            ReadError::Fault(fault) => fault,
        }
    }
}

impl From<AllocError> for FormatFault {
    ghost from_gives = { λ _ fault. fault ≡ out_of_memory };

    fn from(_e: AllocError) -> FormatFault {
        NO_MEMORY
    }
}

/// What a reader of one field returns in place of the field.
#[derive(Clone, Copy)]
pub enum ReadError {
    Memory,
    Fault(FormatFault),
}

impl From<FormatFault> for ReadError {
    ghost from_gives = { λ f e. e ≡ Fault f };

    fn from(fault: FormatFault) -> ReadError {
        ReadError::Fault(fault)
    }
}

impl From<AllocError> for ReadError {
    ghost from_gives = { λ _ e. e ≡ Memory };

    fn from(_e: AllocError) -> ReadError {
        ReadError::Memory
    }
}
