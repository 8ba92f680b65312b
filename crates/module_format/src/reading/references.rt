//! References, which are checked once all rows are read: whether what the rows name is there.

ghost use Rattle.std.specs.Prelude.{◌≡◌, ◌+◌, ◌^◌, ◌<◌, ◌≤◌, ⊤, ℕ, List, length, map, IfOk, Result};
ghost use Rattle.std.specs.List.{flat_map};
ghost use Rattle.module_format.specs.declared.fault.FormatFault.{FormatFault};
ghost use Rattle.module_format.specs.declared.fault.FormatFaultKind.TheVariants.{Range};
ghost use Rattle.module_format.specs.Contents.{label_of};
ghost use Rattle.module_format.specs.Meaning.{Naming, naming};
ghost use Rattle.module_format.specs.Spelling.{fact_bytes, entry_bytes, label_bytes, par_bytes};
ghost use Rattle.module_format.specs.Reading.{fault, Tells};
ghost use Rattle.module_format.specs.References.{fact_references, entry_references, list_references, row_references};
ghost use Rattle.module_format.specs.References.{label_references, references_at};

use crate::contexts::{Context, Contexts};
use crate::fact::Fact;
use crate::fault::{FormatFault, FormatFaultKind};
use crate::reading::facts::end_of;
use crate::row_sizes::{COUNT_SIZE, ENTRY_HEAD_SIZE, LABEL_HEAD_SIZE, LABEL_OFFSET_SIZE, TAG_SIZE};
use crate::rows::{Entry, LabelRow};

/// What a field names is not there.
pub(crate) fn not_there(offset: usize) -> FormatFault
    ensures { result ≡ fault Range offset }
{
    FormatFault::new(FormatFaultKind::Range, offset)
}

/// An item of a list, whose references are checked in a context.
pub(crate) trait References<C>: Drop {
    /// Whether what the item at an offset names is there.
    ghost naming: { Naming C Self };

    /// Returns the offset after the item.
    fn references(&self, context: &C, at: usize) -> Result<usize, FormatFault>
        requires { at + length (naming.bytes (naming.view self.now)) < 2 ^ 64 }
        ensures gives { Tells result (naming.looked context.now at (naming.view self.now)) }
        ensures behind { IfOk result (λ end. end ≡ at + length (naming.bytes (naming.view self.now))) };
}

/// Each item in turn, the first of them at offset `start`. Returns the offset after the last.
pub(crate) fn list_references<C, T: References<C>>(
    context: &C,
    start: usize,
    items: &[T],
) -> Result<usize, FormatFault>
    requires { start + length (flat_map T.naming.bytes (map T.naming.view items.now)) < 2 ^ 64 }
    ensures gives { Tells result
        (list_references (T.naming.looked context.now) T.naming.bytes start (map T.naming.view items.now)) }
    ensures behind { IfOk result (λ end. end ≡ start + length (flat_map T.naming.bytes (map T.naming.view items.now))) }
{
    let mut at = start;
    for item in items {
        at = item.references(context, at)?;
    }
    Ok(at)
}

/// How many bytes a fact has in the file.
#[tactic(auto, unfolding(crate::specs::Spelling::fact_bytes, crate::specs::Spelling::u16_bytes, crate::specs::Spelling::u32_bytes, crate::specs::Spelling::u64_bytes, crate::specs::Spelling::i32_bytes))]
fn fact_size(fact: &Fact) -> usize
    ensures value { result ≡ length (fact_bytes fact.now) }
    ensures small { result ≤ 17 }
{
    match fact {
        Fact::Unknown | Fact::ReturnAddress => 1,
        Fact::Number { .. } => 9,
        Fact::Pointer { .. } => 12,
        Fact::CodeAddress { .. } => 5,
        Fact::Loop { .. } => 17,
    }
}

/// A pointer's region is there; the fact is at offset `at`.
#[tactic(auto, unfolding(crate::specs::References::fact_references))]
fn fact_references(parameters: usize, at: usize, fact: &Fact) -> Result<(), FormatFault>
    requires { at + 1 < 2 ^ 64 }
    ensures { Tells result (fact_references parameters at fact.now) }
{
    match fact {
        Fact::Pointer { region, .. } => {
            if region.is_there(parameters) {
                return Ok(());
            }
            Err(not_there(at + TAG_SIZE))
        }
        _ => Ok(()),
    }
}

impl References<Context> for Entry {
    ghost naming = { naming (λ e. e) entry_bytes entry_references };

    #[tactic(auto, using(crate::proofs::Sizes::entry_size), unfolding(crate::specs::References::entry_references))]
    fn references(&self, context: &Context, at: usize) -> Result<usize, FormatFault> {
        if i64::from(self.word) < context.lo || end_of(self) > context.hi {
            return Err(not_there(at));
        }
        fact_references(context.parameters, at + ENTRY_HEAD_SIZE, &self.fact)?;
        Ok(at + ENTRY_HEAD_SIZE + fact_size(&self.fact))
    }
}

/// What the row at offset `at` says is there in its context. Returns the offset after the row.
#[tactic(auto, using(crate::proofs::Sizes::label_size), unfolding(crate::specs::References::row_references, crate::specs::Reading::and_then))]
fn row_references(context: &Context, at: usize, row: &LabelRow) -> Result<usize, FormatFault>
    requires { at + length (label_bytes (label_of row.now)) < 2 ^ 64 }
    ensures gives { Tells result (row_references context.now at (label_of row.now)) }
    ensures behind { IfOk result (λ end. end ≡ at + length (label_bytes (label_of row.now))) }
{
    let at_a = at + LABEL_HEAD_SIZE;
    fact_references(context.parameters, at_a, &row.stack.a)?;
    let at_b = at_a + fact_size(&row.stack.a);
    fact_references(context.parameters, at_b, &row.stack.b)?;
    let at_c = at_b + fact_size(&row.stack.b);
    fact_references(context.parameters, at_c, &row.stack.c)?;
    let at_entries = at_c + fact_size(&row.stack.c) + COUNT_SIZE;
    list_references(context, at_entries, &row.entries)
}

impl References<Contexts<'_, '_>> for LabelRow {
    ghost naming = { naming label_of label_bytes label_references };

    #[tactic(auto, using(crate::proofs::Sizes::label_size), unfolding(crate::specs::References::label_references))]
    fn references(&self, contexts: &Contexts<'_, '_>, at: usize) -> Result<usize, FormatFault> {
        match contexts.context(u32::from(self.context)) {
            Some(context) => row_references(&context, at, self),
            None => Err(not_there(at + LABEL_OFFSET_SIZE)),
        }
    }
}

/// Each label row and then each PAR row in turn, the first label row at offset `start`.
#[tactic(auto, unfolding(crate::specs::References::references_at, crate::specs::Reading::and_then))]
pub fn rows_references(contexts: &Contexts, start: usize) -> Result<(), FormatFault>
    requires { start + length (flat_map label_bytes contexts.now.labels) + length
        (flat_map par_bytes contexts.now.pars) < 2 ^ 64 }
    ensures { Tells result (references_at start contexts.now) }
{
    let tables = contexts.tables();
    let pars = list_references(contexts, start, &tables.labels)?;
    list_references(contexts, pars, &tables.pars)?;
    Ok(())
}
