//! From pieces to a module.

ghost use Rattle.std.specs.Prelude.{◌≡◌, ◌≤◌, ◌<◌, ◌+◌, ℕ, List, [], IfOk, IfErr, Err};
ghost use Rattle.module_format.specs.declared.limits.TheConstants.{MAX_DATA_WORDS};
ghost use Rattle.module_builder.specs.Drafts.{IsComplete};
ghost use Rattle.module_builder.specs.Layouts.{IsLeast};
ghost use Rattle.code_pieces.specs.PieceViews.{pieces_of};
ghost use Rattle.code_pieces.specs.Needed.{HasLabels, NeedsAreWithin};
ghost use Rattle.code_pieces.specs.Laying.{apart, tables_before, draft_code, sizes_of, pars_of, words_taken};
ghost use Rattle.code_pieces.specs.Tables.{TablesAreWithin};
ghost use Rattle.code_pieces.specs.Contexts.{AreNames};
ghost use Rattle.code_pieces.specs.Laid.{IsDraftOf, IsLaidOut, AreNeeded, NeedsFit, IsModuleOf, AreTooLarge};
ghost use Rattle.code_pieces.specs.WellFormed.{AreNamed, AreWellFormed, AreInvalid};

use crate::contexts::ContextNames;
use crate::drafting::{draft_code, made};
use crate::needs::Needs;
use crate::pars::par_rows;
use crate::piece::Piece;
use crate::saying::rows_of;
use crate::separating::apart;
use crate::sizes::sizes_of;
use crate::tables::ConstantTables;
use crate::words::words_taken;
use module_builder::{Draft, GenFault, assemble, is_whole, layout};
use module_format::{MAX_DATA_WORDS, Version};
use std::alloc::Global;

/// The data word at which the workspace of the root begins.
pub const BASE: u32 = 3;

/// The data words of a module of pieces, with those below the root's workspace.
fn data_words(pieces: &[Piece]) -> Result<u32, GenFault>
    ensures ok { IfOk result (λ n. n ≡ BASE + words_taken (pieces_of pieces.now)) }
    ensures few { IfOk result (λ n. n ≤ MAX_DATA_WORDS) }
    ensures err { IfErr result (λ e. (e ≡ GenFault.Limit)
        × (MAX_DATA_WORDS < BASE + words_taken (pieces_of pieces.now))) }
{
    let words = BASE + words_taken(pieces);
    if words > MAX_DATA_WORDS {
        return Err(GenFault::Limit);
    }
    Ok(words)
}

/// A draft with the code, the tables and the PARs of pieces. Its budget is 0, and it has no label rows.
fn unnumbered(
    alloc: Global,
    pieces: &[Piece],
    contexts: &ContextNames,
    data_words: u32,
    labels: usize,
    links: [u32; 8],
) -> Result<Draft, GenFault>
    requires contexts { AreNames contexts.now (pars_of (pieces_of pieces.now)) }
    requires words { data_words ≡ BASE + words_taken (pieces_of pieces.now) }
    ensures ok { IfOk result (λ d. IsDraftOf (pieces_of pieces.now) labels links d) }
    ensures limit { result ≡ Err GenFault.Limit → ¬ TablesAreWithin (tables_before [] (pieces_of pieces.now)) }
    ensures invalid { result ≡ Err GenFault.Invalid → ¬ AreWellFormed (pieces_of pieces.now) labels }
{
    let tables = ConstantTables::of(alloc, pieces)?;
    let code = draft_code(alloc, pieces, labels, &tables)?;
    let end = made(&code, labels)?;
    let constants = tables.constants(alloc)?;
    let table_rows = tables.rows(alloc)?;
    let pars = par_rows(alloc, &code, contexts, pieces)?;
    Ok(Draft {
        code,
        version: Version::Two,
        constants,
        data_words,
        base: BASE,
        budget: 0,
        finish: Some(end),
        lengths: links,
        has_long_operations: false,
        procedures: Vec::new(alloc),
        labels: Vec::new(alloc),
        pars,
        table_rows,
    })
}

/// What the code of a draft needs by its least layout.
fn needs_in(
    alloc: Global,
    draft: &Draft,
    pieces: &[Piece],
    labels: usize,
) -> Result<Needs, GenFault>
    requires { IsComplete draft.now.code }
    ensures ok { IfOk result (λ v. AreNeeded draft.now.code (pieces_of pieces.now) v) }
    ensures limit { result ≡ Err GenFault.Limit → (lengths : List ℕ) → IsLeast draft.now.code lengths
        → ¬ NeedsAreWithin (pieces_of pieces.now) (sizes_of (pieces_of pieces.now) lengths) }
    ensures within { IfOk result (λ _. NeedsFit draft.now.code (pieces_of pieces.now)) }
    ensures labels { IfOk result (λ v. HasLabels labels v) }
    ensures invalid { result ≡ Err GenFault.Invalid → ¬ AreNamed labels (pieces_of pieces.now) }
{
    let layout = layout(alloc, draft)?;
    let sizes = sizes_of(alloc, pieces, &layout.lengths)?;
    let needs = Needs::of(alloc, pieces, &sizes, labels)?;
    Ok(needs)
}

/// The draft of pieces, whose rows are kept apart.
fn draft_of(
    alloc: Global,
    pieces: &[Piece],
    labels: usize,
    links: [u32; 8],
) -> Result<Draft, GenFault>
    ensures ok { IfOk result (λ d. IsLaidOut (pieces_of pieces.now) labels links d) }
    ensures limit { result ≡ Err GenFault.Limit → AreTooLarge (pieces_of pieces.now) labels links }
    ensures few { IfOk result (λ _. words_taken (pieces_of pieces.now) ≤ MAX_DATA_WORDS) }
    ensures within { IfOk result (λ _. NeedsFit (draft_code (pieces_of pieces.now) labels) (pieces_of pieces.now)) }
    ensures invalid { result ≡ Err GenFault.Invalid → AreInvalid (pieces_of pieces.now) labels links }
{
    let words = data_words(pieces)?;
    let contexts = ContextNames::of(alloc, pieces, labels)?;
    let mut draft = unnumbered(alloc, pieces, &contexts, words, labels, links)?;
    if !draft.code.is_complete() {
        return Err(GenFault::Invalid);
    }
    let needs = needs_in(alloc, &draft, pieces, labels)?;
    let rows = rows_of(alloc, &draft.code, &contexts, &needs, pieces)?;
    draft.budget = needs.need();
    draft.labels = rows;
    Ok(draft)
}

/// The module of pieces with `labels` labels, for links that take messages of these lengths: output links 0 to 3
/// and input links 0 to 3. Its version is 2, its code is the pieces with their rows kept apart, and it is finished at
/// the end of the code. Its budget is what the code executes at most.
///
/// # Errors
///
/// `Limit` if no layout fits or a number is above a limit of the format; `Invalid` if a label that is named is not
/// there or is placed nowhere, if a branch that is named is of no PAR, or if the tables are not valid otherwise;
/// `Memory` if memory runs out. Too many words are found first.
pub fn module_of(
    alloc: Global,
    pieces: Vec<Piece>,
    labels: usize,
    links: [u32; 8],
) -> Result<Vec<u8>, GenFault>
    ensures ok { IfOk result (λ v. IsModuleOf (pieces_of pieces.items) labels links v.items) }
    ensures limit { result ≡ Err GenFault.Limit → AreTooLarge (apart (pieces_of pieces.items)) labels links }
    ensures invalid { result ≡ Err GenFault.Invalid → AreInvalid (apart (pieces_of pieces.items)) labels links }
{
    let pieces = apart(alloc, pieces)?;
    let draft = draft_of(alloc, &pieces, labels, links)?;
    if !is_whole(&draft) {
        return Err(GenFault::Invalid);
    }
    let bytes = assemble(alloc, &draft)?;
    Ok(bytes)
}
