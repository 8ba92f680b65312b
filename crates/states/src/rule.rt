//! The rules that a certificate can break, and the numbers by which they are reported.

use std::alloc::{AllocError, AllocFailed};

/// A rule that a certificate can break. Running out of memory breaks none.
#[derive(Clone, Copy, Debug, PartialEq, Eq)]
pub enum Rule {
    /// V1: no known spelling of an instruction is here.
    Spelling = 1,
    /// V2: a label, an entry or a successor is within an instruction.
    InstructionStart = 2,
    /// V3: nothing leads here, or control falls off the code or into a procedure.
    Flow = 3,
    /// V4: a register that is used is unknown.
    UnknownRegister = 4,
    /// V5: a number is wanted, or a result does not fit.
    Number = 5,
    /// V6: a pointer is wanted, or what it points to cannot be used so.
    Pointer = 6,
    /// V7: regions meet.
    RegionsMeet = 7,
    /// V8: a channel is wanted, or its end is not held.
    Channel = 8,
    /// V9: a message's length is not the channel's.
    MessageLength = 9,
    /// V10: an instruction is out of the order of an alternation.
    Alternation = 10,
    /// V11: a jump leads back.
    Forward = 11,
    /// V12: an instruction is out of the order of a PAR, or does not agree with its row.
    Par = 12,
    /// V13: a call or a return is where there can be none.
    Call = 13,
    /// V14: a word is not the context's to use.
    OwnWord = 14,
    /// V15: the number does not cover what is to be paid.
    Budget = 15,
    /// V16: there is no label, or what is known is less than the label says.
    Label = 16,
}

impl Rule {
    ghost use Rattle.std.specs.Prelude.{◌≡◌};
    ghost use Rattle.states.specs.Numbers.{number_of};

    /// The number by which the rule is reported.
    pub fn number(self) -> u8
        ensures { result ≡ number_of self }
    {
        self as u8
    }
}

/// Why a state cannot go on: a rule is broken, or memory ran out.
#[derive(Clone, Copy, Debug, PartialEq, Eq)]
pub struct RuleFault {
    /// The rule's number, or `MEMORY`: a constant of this module.
    pub number: u8,
}

impl From<Rule> for RuleFault {
    ghost use Rattle.std.specs.Prelude.{◌≡◌};
    ghost use Rattle.states.specs.Numbers.{fault_of};

    ghost from_gives = { λ rule fault. fault ≡ fault_of rule };

    fn from(rule: Rule) -> RuleFault {
        RuleFault {
            number: rule.number(),
        }
    }
}

impl From<AllocError> for RuleFault {
    ghost use Rattle.std.specs.Prelude.{◌≡◌};
    ghost use Rattle.states.specs.Numbers.{out_of_memory};

    ghost from_gives = { λ _ fault. fault ≡ out_of_memory };

    fn from(_error: AllocError) -> RuleFault {
        RuleFault { number: MEMORY }
    }
}

impl<T: Drop> From<AllocFailed<T>> for RuleFault {
    ghost use Rattle.std.specs.Prelude.{◌≡◌};
    ghost use Rattle.states.specs.Numbers.{out_of_memory};

    ghost from_gives = { λ _ fault. fault ≡ out_of_memory };

    fn from(_error: AllocFailed<T>) -> RuleFault {
        RuleFault { number: MEMORY }
    }
}

/// The number of `Rule::Spelling`.
pub const SPELLING: u8 = Rule::Spelling as u8;
/// The number of `Rule::InstructionStart`.
pub const INSTRUCTION_START: u8 = Rule::InstructionStart as u8;
/// The number of `Rule::Flow`.
pub const FLOW: u8 = Rule::Flow as u8;
/// The number of `Rule::UnknownRegister`.
pub const UNKNOWN_REGISTER: u8 = Rule::UnknownRegister as u8;
/// The number of `Rule::Number`.
pub const NUMBER: u8 = Rule::Number as u8;
/// The number of `Rule::Pointer`.
pub const POINTER: u8 = Rule::Pointer as u8;
/// The number of `Rule::RegionsMeet`.
pub const REGIONS_MEET: u8 = Rule::RegionsMeet as u8;
/// The number of `Rule::Channel`.
pub const CHANNEL: u8 = Rule::Channel as u8;
/// The number of `Rule::MessageLength`.
pub const MESSAGE_LENGTH: u8 = Rule::MessageLength as u8;
/// The number of `Rule::Alternation`.
pub const ALTERNATION: u8 = Rule::Alternation as u8;
/// The number of `Rule::Forward`.
pub const FORWARD: u8 = Rule::Forward as u8;
/// The number of `Rule::Par`.
pub const PAR: u8 = Rule::Par as u8;
/// The number of `Rule::Call`.
pub const CALL: u8 = Rule::Call as u8;
/// The number of `Rule::OwnWord`.
pub const OWN_WORD: u8 = Rule::OwnWord as u8;
/// The number of `Rule::Budget`.
pub const BUDGET: u8 = Rule::Budget as u8;
/// The number of `Rule::Label`.
pub const LABEL: u8 = Rule::Label as u8;
/// V17, which is no rule: memory ran out.
pub const MEMORY: u8 = 17;
