//! A module file of version 1, written to another file in version 2.

ghost use Rattle.std.specs.Prelude.{MatchResult, string_bytes};
ghost use Rattle.module_format.specs.Keeping.{IsUpgraded};
ghost use Rattle.tpm_actions.specs.Upgrading.{HasUpgraded, RefusesUpgrade, WithholdsUpgrade};
ghost use Rattle.file_access.specs.Storage.{storage_of};

use crate::report::{Failure, Report};
use certificate::ModuleFile;
use file_access::{Files, write_file};
use std::alloc::Global;
use verifier::upgrade;

/// The file in version 2 of the module in these bytes.
fn upgraded<'a>(alloc: Global, bytes: &[u8]) -> Result<Vec<u8>, Failure<'a>>
    ensures { MatchResult result (λ file. IsUpgraded bytes.now file.items) (RefusesUpgrade bytes.now) }
{
    let file = ModuleFile::read(alloc, bytes)?;
    Ok(upgrade(alloc, &file)?)
}

/// Upgrades the module in these bytes, writes it to the file of this path, and reports how long it is. The file is not
/// created unless there is a module of version 1.
pub fn upgrade_to_file<'a, F: Files>(
    alloc: Global,
    bytes: &[u8],
    out: &'a str,
    files: &mut F,
) -> Result<String, Failure<'a>>
    ensures { let storage = storage_of F.calls F.Reader.left F.Reader.failed F.Writer.written F.Writer.failed in
        MatchResult result
        (λ text. HasUpgraded storage bytes.now out.entry.now files.old files.new
        (string_bytes text))
        (WithholdsUpgrade storage bytes.now out.entry.now files.old files.new) }
{
    let file = upgraded(alloc, bytes)?;
    write_file(out, &file, files)?;
    let report = Report::Upgraded { bytes: file.len() };
    Ok(format!(in alloc; "{report}\n")?)
}
