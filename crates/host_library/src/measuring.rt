//! How many bytes a machine takes.

ghost use Rattle.std.specs.Prelude.{◌≡◌, IfErr, MatchResult};
ghost use Rattle.module_format.specs.Contents.{Contents, contents_of};
ghost use Rattle.module_format.specs.Keeping.{Format};
ghost use Rattle.machine_state.specs.World.{IsLoadable};
ghost use Rattle.certified_worlds.specs.Certified.{IsCertified};
ghost use Rattle.host_library.specs.Files.{IsCertifiedFile};
ghost use Rattle.host_library.specs.Failures.{Withholds};
ghost use Rattle.host_library.specs.Sizes.{AreSizes};
ghost use Rattle.host_library.specs.declared.failure.HostFailure.TheVariants.{Memory};

use crate::certifying::certified_module;
use crate::failure::HostFailure;
use kept_runs::KeptRun;
use module_format::Tables;
use plain_machine::DecodedInstruction;
use std::alloc::Global;

/// How many bytes a machine takes, as a host reads it.
#[repr(C)]
#[derive(Clone, Copy)]
pub struct HostSizes {
    /// Those of its memory: data, code and constants.
    pub memory: usize,
    /// Those of its decoded code.
    pub decoded: usize,
    /// Those of all else, without what the allocator adds.
    pub record: usize,
    /// The most instruction bytes that any run executes.
    pub budget: u64,
}

/// What a run keeps beside its memory and its decoded code.
const RUN_SIZE: usize = size_of::<KeptRun>();

const _: () = prove!(size_of::<KeptRun>() <= 512);

/// How many bytes a machine of a module takes.
fn sizes_in(tables: &Tables) -> HostSizes
    requires { IsLoadable (contents_of tables.now) }
    ensures { AreSizes result (contents_of tables.now) }
{
    let code = tables.code.len();
    let padding = (4 - code % 4) % 4;
    HostSizes {
        memory: 4 * tables.data_words as usize + code + padding + tables.constants.len(),
        decoded: code * size_of::<DecodedInstruction>(),
        record: RUN_SIZE,
        budget: tables.budget,
    }
}

/// The sizes of the module in these bytes, if it is certified.
pub fn sizes_of(alloc: Global, bytes: &[u8]) -> Result<HostSizes, HostFailure>
    ensures answer { MatchResult result (λ sizes. IsCertifiedFile bytes.now (AreSizes sizes))
        (Withholds bytes.now (λ index. ⊥)) }
    ensures certified { (m : Contents) → Format bytes.now m → IsCertified m
        → IfErr result (λ failure. failure ≡ Memory) }
{
    let module = certified_module(alloc, bytes)?;
    Ok(sizes_in(module.tables()))
}
