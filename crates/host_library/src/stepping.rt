//! Machines that hosts step.

ghost use Rattle.std.specs.Prelude.{◌≡◌, ◌≢◌, ◌⊎◌, ◌<◌, length, IfErr, MatchResult};
ghost use Rattle.module_format.specs.Contents.{Contents};
ghost use Rattle.module_format.specs.Keeping.{Format};
ghost use Rattle.certified_worlds.specs.Certified.{IsCertified};
ghost use Rattle.host_library.specs.Files.{IsCertifiedFile};
ghost use Rattle.host_library.specs.Failures.{Withholds};
ghost use Rattle.host_library.specs.declared.failure.HostFailure.TheVariants.{Memory};
ghost use Rattle.host_library.specs.Machines.{IsLoaded, IsState};

use crate::certifying::certified_module;
use crate::effects::HostState;
use crate::failure::HostFailure;
use kept_runs::KeptRun;
use machine_state::Link;
use std::alloc::Global;

/// The run of the module in these bytes, if it is certified.
pub fn loaded_run(alloc: Global, bytes: &[u8]) -> Result<Box<KeptRun>, HostFailure>
    ensures answer { MatchResult result (λ run. IsCertifiedFile bytes.now (λ m. IsLoaded m run.value))
        (Withholds bytes.now (λ index. ⊥)) }
    ensures certified { (m : Contents) → Format bytes.now m → IsCertified m
        → IfErr result (λ failure. failure ≡ Memory) }
{
    let module = certified_module(alloc, bytes)?;
    let run = KeptRun::load(alloc, module.tables())?;
    Ok(Box::new(alloc, run)?)
}

/// What can be asked of a run.
pub fn state_of(run: &KeptRun) -> HostState
    ensures { IsState result run.now }
{
    HostState {
        executed: run.executed(),
        message: run.message().len(),
        is_running: u8::from(run.running()),
        is_finished: u8::from(run.finished()),
        wants: [
            u8::from(run.wants(Link::Zero)),
            u8::from(run.wants(Link::One)),
            u8::from(run.wants(Link::Two)),
            u8::from(run.wants(Link::Three)),
        ],
    }
}
