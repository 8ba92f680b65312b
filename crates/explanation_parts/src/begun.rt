//! What begins at an offset.

ghost use Rattle.std.specs.Prelude.{◌≡◌, ◌++◌, OnOk, string_bytes};
ghost use Rattle.module_format.specs.Contents.{contents_of};
ghost use Rattle.certificate.specs.Starts.{procedure_at};
ghost use Rattle.certificate.specs.Branches.{branch_at};
ghost use Rattle.explanation_parts.specs.Begun.{begun_text, procedure_begun, branch_begun};

use certificate::Module;
use fact_texts::context_text;
use module_format::Tables;
use std::alloc::AllocError;

/// Appends that a context begins there.
#[tactic(auto, unfolding(crate::specs::Begun::begun_text))]
fn push_context(text: &mut String, tables: &Tables<'_>, number: u32) -> Result<(), AllocError>
    ensures { OnOk result (string_bytes text.new
        ≡ string_bytes text.old ++ begun_text (contents_of tables.now) number) }
{
    let context = context_text(tables, number);
    write!(text, "; {context} begins there")
}

/// Appends which procedure begins at an offset.
pub(crate) fn push_procedure_begun(
    text: &mut String,
    module: &Module,
    at: u32,
) -> Result<(), AllocError>
    ensures { OnOk result (string_bytes text.new
        ≡ string_bytes text.old ++ procedure_begun «module».now (procedure_at «module».now at)) }
{
    match module.procedure_at(at) {
        Some((context, _row)) => push_context(text, module.tables(), context),
        None => text.push_str("; none begins there"),
    }
}

/// Appends which branch begins at an offset.
pub fn push_branch_begun(text: &mut String, module: &Module, at: u32) -> Result<(), AllocError>
    ensures { OnOk result (string_bytes text.new
        ≡ string_bytes text.old ++ branch_begun «module».now (branch_at «module».now at)) }
{
    match module.branch_at(at) {
        Some((context, _par, _row)) => push_context(text, module.tables(), context),
        None => text.push_str("; none begins there"),
    }
}
