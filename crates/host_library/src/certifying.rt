//! The module in bytes that a host hands over.

ghost use Rattle.std.specs.Prelude.{◌≡◌, IfErr, MatchResult};
ghost use Rattle.module_format.specs.Contents.{Contents};
ghost use Rattle.module_format.specs.Keeping.{Format};
ghost use Rattle.certified_worlds.specs.Certified.{IsCertified};
ghost use Rattle.host_library.specs.Files.{IsCertifiedFile};
ghost use Rattle.host_library.specs.Failures.{Withholds};
ghost use Rattle.host_library.specs.declared.failure.HostFailure.TheVariants.{Memory};

use crate::failure::HostFailure;
use certificate::Module;
use std::alloc::Global;
use verifier::{not_both, verify};

/// The module in these bytes, if it is certified.
pub fn certified_module<'a>(alloc: Global, bytes: &'a [u8]) -> Result<Module<'a>, HostFailure>
    ensures answer { MatchResult result (λ found. IsCertifiedFile bytes.now (λ m. found ≡ m))
        (Withholds bytes.now (λ index. ⊥)) }
    ensures certified { (m : Contents) → Format bytes.now m → IsCertified m
        → IfErr result (λ failure. failure ≡ Memory) }
{
    not_both();
    let module = Module::read(alloc, bytes)?;
    verify(alloc, &module)?;
    Ok(module)
}
