//! A fault, in words.

use listings::Entry;
use machine_state::{
    ALTERNATION_ORDER, END_NOT_HELD, ERROR_FLAG, Fault, JOIN_ORDER, NOT_OWN, OUTSIDE_CODE,
    UNALIGNED, UNDEFINED, UNEQUAL_LENGTHS, UNKNOWN_OPERATION,
};
use std::fmt;

/// What is at fault, by the number of the fault.
fn sentence(number: u8) -> &'static str {
    match number {
        ERROR_FLAG =>
            "a result does not fit a word, a divisor is 0, or an index or a count fails its test",
        UNDEFINED => "a register or a byte is used that is undefined",
        OUTSIDE_CODE => "the process goes on outside the code",
        NOT_OWN => "a byte is read or written that is not the process's own",
        UNALIGNED => "the address of a word is no multiple of 4",
        END_NOT_HELD => "the process does not hold the end of the channel",
        UNEQUAL_LENGTHS => "the two sides of a message have different lengths",
        UNKNOWN_OPERATION => "the machine has no such operation, or not without the module's flag",
        ALTERNATION_ORDER =>
            "an instruction of an alternation is out of its order, or another one is among them",
        JOIN_ORDER =>
            "a start or an end of a branch is out of its order, or another instruction is among them",
        _ => "a count is outside the range that the instruction allows",
    }
}

/// A fault in words, with its instruction.
#[derive(Clone, Copy)]
pub struct FaultText {
    pub fault: Fault,
    pub entry: Entry,
}

impl fmt::Display for FaultText {
    fn fmt<W: fmt::Write>(&self, f: &mut fmt::Formatter<W>) -> fmt::Result {
        let Fault {
            number,
            process,
            offset,
        } = self.fault;
        let name = self.entry.name();
        let sentence = sentence(number);
        write!(
            f,
            "fault F{number} at {offset:06} of process {process}: {name}: {sentence}"
        )
    }
}

impl fmt::Debug for FaultText {
    fn fmt<W: fmt::Write>(&self, f: &mut fmt::Formatter<W>) -> fmt::Result {
        write!(f, "{self}")
    }
}
