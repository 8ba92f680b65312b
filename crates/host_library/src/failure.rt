//! Why a host gets no answer.

ghost use Rattle.std.specs.Prelude.{◌≡◌};
ghost use Rattle.host_library.specs.Failures.{status_of, number_told, offset_told};

use crate::status::{NO_EVENT, NO_MODULE, NOT_CERTIFIED, OUT_OF_MEMORY};
use module_format::FormatFault;
use std::alloc::{AllocError, AllocFailed};
use verifier::Refusal;

/// Why a host gets no answer.
#[derive(Clone, Copy)]
pub enum HostFailure {
    /// The bytes are no module file.
    NoFile(FormatFault),
    /// The module is not certified.
    Uncertified(Refusal),
    /// This one of the events is none.
    NoEvent { index: usize },
    /// Memory ran out.
    Memory,
}

impl From<FormatFault> for HostFailure {
    ghost use Rattle.host_library.specs.Failures.{failure_of_file};

    ghost from_gives = { λ fault failure. failure ≡ failure_of_file fault };

    fn from(fault: FormatFault) -> Self {
        if fault.number == module_format::MEMORY {
            HostFailure::Memory
        } else {
            HostFailure::NoFile(fault)
        }
    }
}

impl From<Refusal> for HostFailure {
    ghost use Rattle.host_library.specs.Failures.{failure_of_module};

    ghost from_gives = { λ refusal failure. failure ≡ failure_of_module refusal };

    fn from(refusal: Refusal) -> Self {
        if refusal.number == states::MEMORY {
            HostFailure::Memory
        } else {
            HostFailure::Uncertified(refusal)
        }
    }
}

impl From<AllocError> for HostFailure {
    ghost use Rattle.host_library.specs.declared.failure.HostFailure.TheVariants as failures;

    ghost from_gives = { λ _ failure. failure ≡ failures.Memory };

    fn from(_error: AllocError) -> Self {
        HostFailure::Memory
    }
}

impl<T: Drop> From<AllocFailed<T>> for HostFailure {
    ghost use Rattle.host_library.specs.declared.failure.HostFailure.TheVariants as failures;

    ghost from_gives = { λ _ failure. failure ≡ failures.Memory };

    fn from(_error: AllocFailed<T>) -> Self {
        HostFailure::Memory
    }
}

impl HostFailure {
    /// Writes where the fault is into the caller's memory, if it is one of the file, the module or an event, and
    /// gives the status.
    pub fn tell(self, number: &mut u8, offset: &mut usize) -> u8
        ensures status { result ≡ status_of self }
        ensures number { number.new ≡ number_told self number.old }
        ensures offset { offset.new ≡ offset_told self offset.old }
    {
        match self {
            HostFailure::NoFile(fault) => {
                *number = fault.number;
                *offset = fault.offset;
                NO_MODULE
            }
            HostFailure::Uncertified(refusal) => {
                *number = refusal.number;
                *offset = refusal.offset as usize;
                NOT_CERTIFIED
            }
            HostFailure::NoEvent { index } => {
                *offset = index;
                NO_EVENT
            }
            HostFailure::Memory => OUT_OF_MEMORY,
        }
    }
}
