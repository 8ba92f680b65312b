//! Why a machine stopped.

ghost use Rattle.std.specs.Prelude.{◌≡◌};
ghost use Rattle.machine_state.specs.Faults.{number_of, fault_in};

/// A rule of the machine that a process breaks.
#[derive(Clone, Copy)]
pub enum FaultKind {
    /// A result does not fit a word, and sets the error flag.
    ErrorFlag,
    /// An undefined value is used.
    Undefined,
    /// The process goes on outside the code.
    OutsideCode,
    /// A byte outside the regions that the process holds is touched.
    NotOwn,
    /// A word address is not a multiple of 4.
    Unaligned,
    /// The process does not hold the channel end.
    EndNotHeld,
    /// The two sides of a message have unequal lengths.
    UnequalLengths,
    /// The machine has no such function or operation.
    UnknownOperation,
    /// An instruction of an alternation, or one that is allowed only outside it, comes out of order.
    AlternationOrder,
    /// A start or a join, or an instruction that is allowed only outside them, comes out of order.
    JoinOrder,
    /// A count is out of range.
    CountRange,
}

impl FaultKind {
    /// The number by which the fault is reported.
    pub fn number(self) -> u8
        ensures { result ≡ number_of self }
    {
        match self {
            FaultKind::ErrorFlag => ERROR_FLAG,
            FaultKind::Undefined => UNDEFINED,
            FaultKind::OutsideCode => OUTSIDE_CODE,
            FaultKind::NotOwn => NOT_OWN,
            FaultKind::Unaligned => UNALIGNED,
            FaultKind::EndNotHeld => END_NOT_HELD,
            FaultKind::UnequalLengths => UNEQUAL_LENGTHS,
            FaultKind::UnknownOperation => UNKNOWN_OPERATION,
            FaultKind::AlternationOrder => ALTERNATION_ORDER,
            FaultKind::JoinOrder => JOIN_ORDER,
            FaultKind::CountRange => COUNT_RANGE,
        }
    }
}

/// A fault of a process, as it is reported.
#[derive(Clone, Copy, Debug, PartialEq, Eq)]
pub struct Fault {
    /// The number of its kind, 1 to 11.
    pub number: u8,
    /// The process at fault.
    pub process: u64,
    /// The code offset of the first byte of its instruction, prefixes included.
    pub offset: u32,
}

impl Fault {
    /// What is reported of a fault of a process in its instruction that began at a code offset.
    pub fn new(kind: FaultKind, process: u64, began: u32) -> Self
        ensures { result ≡ fault_in process began kind }
    {
        Fault {
            number: kind.number(),
            process,
            offset: began,
        }
    }
}

/// The number of `FaultKind::ErrorFlag`.
pub const ERROR_FLAG: u8 = 1;
/// The number of `FaultKind::Undefined`.
pub const UNDEFINED: u8 = 2;
/// The number of `FaultKind::OutsideCode`.
pub const OUTSIDE_CODE: u8 = 3;
/// The number of `FaultKind::NotOwn`.
pub const NOT_OWN: u8 = 4;
/// The number of `FaultKind::Unaligned`.
pub const UNALIGNED: u8 = 5;
/// The number of `FaultKind::EndNotHeld`.
pub const END_NOT_HELD: u8 = 6;
/// The number of `FaultKind::UnequalLengths`.
pub const UNEQUAL_LENGTHS: u8 = 7;
/// The number of `FaultKind::UnknownOperation`.
pub const UNKNOWN_OPERATION: u8 = 8;
/// The number of `FaultKind::AlternationOrder`.
pub const ALTERNATION_ORDER: u8 = 9;
/// The number of `FaultKind::JoinOrder`.
pub const JOIN_ORDER: u8 = 10;
/// The number of `FaultKind::CountRange`.
pub const COUNT_RANGE: u8 = 11;
