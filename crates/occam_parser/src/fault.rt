//! Why some lines are no program.

ghost use Rattle.std.specs.Prelude.{◌≡◌, ◌≤◌, ◌<◌, length};
ghost use Rattle.occam_parser.specs.Blocks.{rows_of};
ghost use Rattle.occam_parser.specs.LineFaults.{IsTold, IsToldOf, IsNumbered};
ghost use Rattle.occam_parser.specs.declared.fault.LineError.TheVariants.{Memory, Fault as at_fault};
ghost use Rattle.occam_parser.specs.declared.fault.Refusal.TheVariants.{Memory as OutOfMemory, Fault as refused_at};

use occam_layout::Line;
use std::alloc::AllocFailed;

/// The grammar has another token or line there, or none.
pub const UNEXPECTED_TOKEN: u8 = 5;
/// A head has no body.
pub const MISSING_BODY: u8 = 6;
/// Lines, or an expression's brackets, subscripts and conversions, are nested too deep.
pub const NESTING: u8 = 7;
/// Operators are side by side without brackets.
pub const MIXTURE: u8 = 8;
/// Memory ran out.
pub const MEMORY: u8 = 20;

/// Why lines were refused, and where.
#[derive(Clone, Copy, Debug, PartialEq, Eq)]
pub struct ParseFault {
    /// One of the named numbers of this crate.
    pub number: u8,
    /// The number of the line at fault, or 0 if memory ran out.
    pub line: u32,
}

/// What is wrong with a line.
#[derive(Clone, Copy)]
pub(crate) enum Fault {
    UnexpectedToken,
    MissingBody,
    Nesting,
    Mixture,
}

impl Fault {
    /// This fault of a line, where `left` lines are left from that line on.
    pub(crate) fn at(self, left: usize) -> Refusal
        ensures { result ≡ refused_at self left }
    {
        Refusal::Fault(self, left)
    }

    fn number(self) -> u8
        ensures least { UNEXPECTED_TOKEN ≤ result }
        ensures greatest { result ≤ MIXTURE }
    {
        match self {
            Fault::UnexpectedToken => UNEXPECTED_TOKEN,
            Fault::MissingBody => MISSING_BODY,
            Fault::Nesting => NESTING,
            Fault::Mixture => MIXTURE,
        }
    }
}

/// Why some lines gave nothing.
#[derive(Drop)]
pub(crate) enum Refusal {
    Memory,
    /// What is wrong, and the number of lines left from the line at fault on: 0 if a line is missing at the end.
    Fault(Fault, usize),
}

impl Refusal {
    /// This refusal, at a line. If a line is missing after the last one, the refusal is at the last one.
    pub(crate) fn told(self, lines: &[Line<'_>]) -> ParseFault
        ensures { IsTold (rows_of lines.now) self result }
    {
        match self {
            Refusal::Memory => ParseFault {
                number: MEMORY,
                line: 0,
            },
            Refusal::Fault(fault, left) => ParseFault {
                number: fault.number(),
                line: number_of(lines, left),
            },
        }
    }
}

/// The number of the line from which on `left` lines are left, or of the last one if none is left.
fn number_of(lines: &[Line<'_>], left: usize) -> u32
    ensures { 0 < length lines.now → IsNumbered (rows_of lines.now) result }
{
    match lines.get(lines.len().saturating_sub(left.max(1))) {
        Some(line) => line.number,
        None => 0,
    }
}

impl<T: Drop> From<AllocFailed<T>> for Refusal {
    ghost from_gives = { λ _ e. e ≡ OutOfMemory };

    fn from(_e: AllocFailed<T>) -> Refusal {
        Refusal::Memory
    }
}

/// Why the tokens of a line gave nothing.
#[derive(Drop)]
pub(crate) enum LineError {
    Memory,
    Fault(Fault),
}

/// What a line gave, from which on `left` lines are left.
pub(crate) fn at_line<T>(gave: Result<T, LineError>, left: usize) -> Result<T, Refusal>
    ensures { IsToldOf gave left result }
{
    match gave {
        Ok(found) => Ok(found),
        Err(LineError::Memory) => Err(Refusal::Memory),
        Err(LineError::Fault(fault)) => Err(fault.at(left)),
    }
}

impl<T: Drop> From<AllocFailed<T>> for LineError {
    ghost from_gives = { λ _ e. e ≡ Memory };

    fn from(_e: AllocFailed<T>) -> LineError {
        LineError::Memory
    }
}

impl From<Fault> for LineError {
    ghost from_gives = { λ fault e. e ≡ at_fault fault };

    fn from(fault: Fault) -> LineError {
        LineError::Fault(fault)
    }
}
