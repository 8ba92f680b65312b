//! Why a draft gives no module.

ghost use Rattle.std.specs.Prelude.{◌≡◌};
ghost use Rattle.module_builder.specs.declared.fault.GenFault.TheVariants.{Memory};

use std::alloc::{AllocError, AllocFailed};

/// Why a draft gives no module.
#[derive(Clone, Copy, Debug, PartialEq, Eq)]
pub enum GenFault {
    /// G1: a number is above a limit of the format.
    Limit,
    /// G2: memory ran out.
    Memory,
    /// G3: the tables of the draft are not valid.
    Invalid,
}

impl From<AllocError> for GenFault {
    ghost from_gives = { λ _ e. e ≡ Memory };

    fn from(_e: AllocError) -> GenFault {
        GenFault::Memory
    }
}

impl<T: Drop> From<AllocFailed<T>> for GenFault {
    ghost from_gives = { λ _ e. e ≡ Memory };

    fn from(_e: AllocFailed<T>) -> GenFault {
        GenFault::Memory
    }
}
