//! The module of a source, written to a file.

ghost use Rattle.std.specs.Prelude.{MatchResult, string_bytes};
ghost use Rattle.tpm_actions.specs.Compiling.{HasCompiled, WithholdsModule};
ghost use Rattle.file_access.specs.Storage.{storage_of};

use crate::refused::refused_source;
use crate::report::{Failure, Report};
use compiler::compile;
use file_access::{Files, write_file};
use std::alloc::Global;

/// Compiles the source of this path, writes its module to the file `out`, and reports how long it is. The file is not
/// created unless there is a module.
pub fn compile_to_file<'a, F: Files>(
    alloc: Global,
    path: &str,
    source: &[u8],
    out: &'a str,
    files: &mut F,
) -> Result<String, Failure<'a>>
    ensures { let storage = storage_of F.calls F.Reader.left F.Reader.failed F.Writer.written F.Writer.failed in
        MatchResult result
        (λ text. HasCompiled storage source.now out.entry.now files.old files.new
        (string_bytes text))
        (WithholdsModule storage path.now source.now out.entry.now files.old files.new) }
{
    let module = match compile(alloc, source) {
        Ok(module) => module,
        Err(fault) => {
            return Err(Failure::Uncompiled(refused_source(alloc, path, source, fault)));
        }
    };
    write_file(out, &module, files)?;
    let report = Report::Compiled {
        bytes: module.len(),
    };
    Ok(format!(in alloc; "{report}\n")?)
}
