//! Modules that are certified.

use crate::Refusal;
use crate::laws::certified_modules_run_well;
use crate::pass::judge_code;
use certificate::Module;
use std::alloc::Global;
use std::marker::Model;

/// A module that is certified. It is made by `verify` alone.
#[derive(Drop)]
pub struct Verified<'a> {
    module: &'a Module<'a>,
}

impl<'a> Model for Verified<'a> {
    ghost use Rattle.module_format.specs.Contents.{Contents};
    ghost use Rattle.module_format.specs.Keeping.{Keeps};
    ghost use Rattle.certified_worlds.specs.Certified.{IsCertified};

    ghost Value = { Contents };

    ghost view = { λ v. v.module.now };

    ghost invariant = { λ v. ∥ Keeps v.module.now × IsCertified v.module.now ∥₁ };
}

impl<'a> Verified<'a> {
    ghost use Rattle.std.specs.Prelude.{◌≡◌};
    ghost use Rattle.certified_worlds.specs.Certified.{IsCertified};
    ghost use Rattle.verifier.specs.Headline.{RunsWell};

    /// The module. It is certified, and so it runs well.
    pub fn module(&self) -> &Module<'a>
        ensures same { result.now ≡ self.now }
        ensures certified { ∥ IsCertified self.now ∥₁ }
        ensures runs_well { ∥ RunsWell self.now ∥₁ }
    {
        certified_modules_run_well();
        self.module
    }
}

ghost use Rattle.std.specs.Prelude.{◌≡◌, OnOk, IfOk, IfErr};
ghost use Rattle.certified_worlds.specs.Certified.{IsCertified};
ghost use Rattle.verifier.specs.Reports.{Reports};
ghost use Rattle.verifier.specs.Headline.{RunsWell};

/// Whether a module is certified, or else a rule that is broken at the lowest offset where one is. Running out of
/// memory is reported as `states::MEMORY` at offset 0.
// A body that always reports that memory ran out meets these clauses too, since no clause can say that memory
// is left: tests show that modules are accepted.
pub fn verify<'a>(alloc: Global, module: &'a Module<'a>) -> Result<Verified<'a>, Refusal>
    // Whatever events come, in whatever order: no fault, all holdings apart, no more bytes than the budget, and no
    // byte of memory read or written but those that the running process may, or one that waits for its message.
    ensures headline { OnOk result (RunsWell «module».now) }
    ensures accepts { IfOk result (λ v. (v ≡ «module».now) × IsCertified «module».now) }
    // The rule that is broken, by its number, and where; or `states::MEMORY` and 0.
    ensures refuses { IfErr result (Reports «module».now) }
{
    judge_code(alloc, module)?;
    Ok(Verified { module })
}
