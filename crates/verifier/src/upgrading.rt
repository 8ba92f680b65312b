//! Modules of version 1 as modules of version 2.

ghost use Rattle.std.specs.Prelude.{◌≡◌, ◌↔◌, IfOk, Err};
ghost use Rattle.module_format.specs.Keeping.{IsFile};
ghost use Rattle.module_format.specs.declared.tables.Version.TheVariants.{One, Two};
ghost use Rattle.verifier.specs.declared.upgrading.UpgradeFault.TheVariants.{Upgraded, Memory};

use certificate::ModuleFile;
use module_format::{Version, write_as};
use std::alloc::{AllocError, Global};

/// The number of [`UpgradeFault::Upgraded`].
pub const UPGRADED: u8 = 1;
/// The number of [`UpgradeFault::Memory`].
pub const MEMORY: u8 = 2;

/// Why a module is not upgraded.
#[derive(Clone, Copy, Debug, PartialEq, Eq)]
pub enum UpgradeFault {
    /// U1: it is of version 2 already.
    Upgraded,
    /// U2: memory ran out.
    Memory,
}

impl UpgradeFault {
    ghost use Rattle.std.specs.Prelude.{◌≡◌};
    ghost use Rattle.verifier.specs.declared.upgrading.UpgradeFault.TheVariants as faults;
    ghost use Rattle.verifier.specs.declared.upgrading.TheConstants.{UPGRADED, MEMORY};

    /// The number that a report names it by.
    pub fn number(self) -> u8
        ensures upgraded { self ≡ faults.Upgraded → result ≡ UPGRADED }
        ensures memory { self ≡ faults.Memory → result ≡ MEMORY }
    {
        match self {
            UpgradeFault::Upgraded => UPGRADED,
            UpgradeFault::Memory => MEMORY,
        }
    }
}

impl From<AllocError> for UpgradeFault {
    ghost from_gives = { λ _ e. e ≡ Memory };

    fn from(_e: AllocError) -> UpgradeFault {
        UpgradeFault::Memory
    }
}

/// The file of a module of version 1 in version 2, which says the same. Nothing but the file is allocated.
pub fn upgrade(alloc: Global, file: &ModuleFile) -> Result<Vec<u8>, UpgradeFault>
    ensures upgraded { IfOk result (λ bytes. (file.now.version ≡ One) × IsFile Two bytes.items file.now.module) }
    ensures refused { result ≡ Err Upgraded ↔ file.now.version ≡ Two }
{
    match file.version {
        Version::Two => Err(UpgradeFault::Upgraded),
        Version::One => Ok(write_as(alloc, Version::Two, file.module.tables())?),
    }
}
