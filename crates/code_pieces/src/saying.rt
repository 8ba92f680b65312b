//! What rows say, with numbers.

ghost use Rattle.std.specs.Prelude.{◌≡◌, ◌≢◌, ◌≤◌, ◌<◌, ◌+◌, ℕ, List, length, map, reverse, IfOk, IfErr, Err};
ghost use Rattle.std.specs.List.{AllByRecursion};
ghost use Rattle.module_format.specs.declared.limits.TheConstants.{MAX_DATA_WORDS};
ghost use Rattle.code_pieces.specs.declared.piece.CodeContext.TheVariants.{Root};
ghost use Rattle.code_pieces.specs.Pars.{Par};
ghost use Rattle.code_pieces.specs.PieceViews.{pieces_of};
ghost use Rattle.code_pieces.specs.Contexts.{AreNames};
ghost use Rattle.code_pieces.specs.Numbers as numbers;
ghost use Rattle.code_pieces.specs.Needed.{IsKnown, HasLabels};
ghost use Rattle.code_pieces.specs.Laying.{said_fact, is_same_range, joins, with_said, said, said_rows};
ghost use Rattle.code_pieces.specs.DraftedRows.{drafted_fact, drafted_entry, shown_row, row_with};
ghost use Rattle.code_pieces.specs.DraftedRows.{drafted_row, said_row, IsOfFewWords};
ghost use Rattle.code_pieces.specs.Pieces.{Row};
ghost use Rattle.code_pieces.specs.WellFormed.{heads_of, heads_said, labels_named, AreBelow, AreNamed};
ghost use Rattle.code_pieces.specs.WellFormed.{HaveFewWords, IsOfOneProcess};

use crate::contexts::ContextNames;
use crate::drafting::made;
use crate::needs::Needs;
use crate::piece::{Piece, RowEntry, WordFact, Workspace};
use crate::workspaces::{in_root, workspace_behind};
use module_builder::{ContextName, GenFault, Instructions, Label};
use module_format::{Entry, Fact, LabelRow, Stack};
use std::alloc::Global;

/// What a certificate says of each of `span` words from `word` on.
#[derive(Clone, Copy)]
pub struct Said {
    pub word: u32,
    pub span: u32,
    pub fact: Fact,
}

/// What a certificate says of a word.
fn said_fact(needs: &Needs, fact: WordFact) -> Result<Fact, GenFault>
    ensures ok { IfOk result (λ f. (n : numbers.Needs) → IsKnown needs.now n → f ≡ said_fact n.weights fact) }
    ensures limit { result ≢ Err GenFault.Limit }
    ensures invalid { result ≡ Err GenFault.Invalid → (labels : ℕ) → HasLabels labels needs.now
        → ¬ AreBelow labels (heads_of fact) }
{
    match fact {
        WordFact::Between { lo, hi } => Ok(Fact::Number { lo, hi }),
        WordFact::Turning { head, base, count } => {
            let weight = needs.weight(head)?;
            Ok(Fact::Loop {
                base,
                count,
                weight,
            })
        }
    }
}

/// Whether two facts are the same range.
fn is_same_range(fact: &Fact, other: &Fact) -> bool
    ensures { result ≡ is_same_range fact.now other.now }
{
    match (*fact, *other) {
        (Fact::Number { lo: a, hi: b }, Fact::Number { lo: c, hi: d }) => a == c && b == d,
        _ => false,
    }
}

/// Whether neighbours have one range.
fn joins(said: &Said, next: &Said) -> bool
    ensures { result ≡ joins said.now next.now }
{
    u64::from(said.word) + u64::from(said.span) == u64::from(next.word)
        && is_same_range(&said.fact, &next.fact)
}

/// What is said of the words of two neighbours.
fn joined(said: &Said, next: &Said) -> Result<Said, GenFault>
    ensures ok { IfOk result (λ s. s
        ≡ record { word = said.now.word; span = said.now.span + next.now.span; fact = said.now.fact }) }
    ensures err { IfErr result (λ e. e ≡ GenFault.Invalid) }
    ensures invalid { IfErr result (λ _. MAX_DATA_WORDS < said.now.span + next.now.span) }
{
    match said.span.checked_add(next.span) {
        Some(span) => Ok(Said {
            word: said.word,
            span,
            fact: said.fact,
        }),
        None => Err(GenFault::Invalid),
    }
}

/// Puts what is said of some words before what is said of others, which come last to first.
#[tactic(auto, using(crate::proofs::RowLaws::said_before_others))]
fn push_before(words: &mut Vec<Said>, said: Said) -> Result<(), GenFault>
    ensures ok { IfOk result (λ _. reverse words.new.items ≡ with_said said (reverse words.old.items)) }
    ensures limit { result ≢ Err GenFault.Limit }
    ensures invalid { result ≡ Err GenFault.Invalid → IsOfFewWords said
        → ¬ AllByRecursion IsOfFewWords (reverse words.old.items) }
{
    let Some(next) = words.pop() else {
        words.push(said)?;
        return Ok(());
    };
    if joins(&said, &next) {
        words.push(joined(&said, &next)?)?;
        return Ok(());
    }
    words.push(next)?;
    words.push(said)?;
    Ok(())
}

/// What is said of the words of one entry.
fn said_of(needs: &Needs, entry: &RowEntry) -> Result<Said, GenFault>
    ensures ok { IfOk result (λ s. (n : numbers.Needs) → IsKnown needs.now n
        → s ≡ record { word = entry.now.word; span = entry.now.span; fact = said_fact n.weights entry.now.fact }) }
    ensures words { IfOk result (λ s. (s.word ≡ entry.now.word) × (s.span ≡ entry.now.span)) }
    ensures limit { result ≢ Err GenFault.Limit }
    ensures invalid { result ≡ Err GenFault.Invalid → (labels : ℕ) → HasLabels labels needs.now
        → ¬ AreBelow labels (heads_of entry.now.fact) }
{
    Ok(Said {
        word: entry.word,
        span: entry.span,
        fact: said_fact(needs, entry.fact)?,
    })
}

/// What a row says, with neighbours of one range joined.
#[tactic(auto, using(crate::proofs::FewWords::few_with_said, crate::proofs::FewWords::few_at))]
fn said_words(alloc: Global, needs: &Needs, entries: &[RowEntry]) -> Result<Vec<Said>, GenFault>
    ensures ok { IfOk result (λ v. (n : numbers.Needs) → IsKnown needs.now n
        → v.items ≡ said n.weights entries.now) }
    ensures few { IfOk result (λ v. HaveFewWords (Row 0 entries.now) → AllByRecursion IsOfFewWords v.items) }
    ensures limit { result ≢ Err GenFault.Limit }
    ensures invalid { result ≡ Err GenFault.Invalid → (labels : ℕ) → HasLabels labels needs.now
        → AreBelow labels (heads_said entries.now) → ¬ HaveFewWords (Row 0 entries.now) }
{
    let mut words = Vec::with_capacity(alloc, entries.len())?;
    for number in (0..entries.len()).rev() {
        let said = said_of(needs, &entries[number])?;
        push_before(&mut words, said)?;
    }
    words.reverse();
    Ok(words)
}

/// A fact of a draft. A row says nothing but ranges and loops.
fn drafted_fact(fact: Fact) -> Fact<Label>
    ensures { result ≡ drafted_fact fact }
{
    match fact {
        Fact::Number { lo, hi } => Fact::Number { lo, hi },
        Fact::Loop {
            base,
            count,
            weight,
        } => Fact::Loop {
            base,
            count,
            weight,
        },
        _ => Fact::Unknown,
    }
}

/// An entry of a draft.
fn drafted_entry(said: &Said) -> Result<Entry<Label>, GenFault>
    ensures ok { IfOk result (λ e. e ≡ drafted_entry said.now) }
    ensures err { IfErr result (λ e. e ≡ GenFault.Invalid) }
    ensures invalid { IfErr result (λ _. ¬ IsOfFewWords said.now) }
{
    match i32::try_from(said.word) {
        Ok(word) => Ok(Entry {
            word,
            span: said.span,
            fact: drafted_fact(said.fact),
        }),
        Err(_) => Err(GenFault::Invalid),
    }
}

/// The entries of a draft.
fn drafted_entries(alloc: Global, said: &[Said]) -> Result<Vec<Entry<Label>>, GenFault>
    ensures ok { IfOk result (λ v. v.items ≡ map drafted_entry said.now) }
    ensures limit { result ≢ Err GenFault.Limit }
    ensures invalid { result ≡ Err GenFault.Invalid → ¬ AllByRecursion IsOfFewWords said.now }
{
    let mut entries = Vec::with_capacity(alloc, said.len())?;
    for words in said {
        entries.push(drafted_entry(words)?)?;
    }
    Ok(entries)
}

/// The row of a draft at a label, with its context, its depth and its number.
fn drafted_row(
    label: Label,
    context: ContextName,
    depth: i32,
    number: u64,
    entries: Vec<Entry<Label>>,
) -> LabelRow<Label, ContextName>
    ensures { shown_row result ≡ row_with label context depth number entries.items }
{
    LabelRow {
        offset: label,
        context,
        depth,
        number,
        stack: Stack {
            a: Fact::Unknown,
            b: Fact::Unknown,
            c: Fact::Unknown,
        },
        entries,
    }
}

/// The row of a draft at a label.
fn row_at(
    alloc: Global,
    code: &Instructions,
    contexts: &ContextNames,
    needs: &Needs,
    workspace: Workspace,
    label: usize,
    entries: &[RowEntry],
) -> Result<LabelRow<Label, ContextName>, GenFault>
    ensures ok { IfOk result (λ row. (ps : List Par) (n : numbers.Needs) → AreNames contexts.now ps
        → IsKnown needs.now n → shown_row row ≡ drafted_row ps (said_row workspace n label entries.now)) }
    ensures limit { result ≢ Err GenFault.Limit }
    ensures invalid { result ≡ Err GenFault.Invalid → (labels : ℕ) → HasLabels labels needs.now
        → labels ≤ length code.now.labels → workspace.context ≡ Root
        → AreBelow labels (labels_named (Row label entries.now)) → ¬ HaveFewWords (Row label entries.now) }
{
    let context = contexts.name(workspace.context)?;
    let number = needs.at_label(label)?;
    let words = said_words(alloc, needs, entries)?;
    let entries = drafted_entries(alloc, &words)?;
    let label = made(code, label)?;
    Ok(drafted_row(label, context, workspace.depth, number, entries))
}

/// The rows of a draft, which has the labels in its code.
///
/// # Errors
///
/// `Invalid` if a row or the branch that it is in has a label that is not there, or it names words that no frame has;
/// `Memory` if memory runs out.
#[tactic(auto, using(crate::proofs::NamedLabels::still_there))]
pub fn rows_of(
    alloc: Global,
    code: &Instructions,
    contexts: &ContextNames,
    needs: &Needs,
    pieces: &[Piece],
) -> Result<Vec<LabelRow<Label, ContextName>>, GenFault>
    ensures ok { IfOk result (λ v. (ps : List Par) (n : numbers.Needs) → AreNames contexts.now ps
        → IsKnown needs.now n
        → map shown_row v.items ≡ map (drafted_row ps) (said_rows n (pieces_of pieces.now))) }
    ensures limit { result ≢ Err GenFault.Limit }
    ensures invalid { result ≡ Err GenFault.Invalid → (labels : ℕ) → HasLabels labels needs.now
        → labels ≤ length code.now.labels → AreNamed labels (pieces_of pieces.now)
        → AllByRecursion IsOfOneProcess (pieces_of pieces.now) → AllByRecursion HaveFewWords (pieces_of pieces.now)
        → ⊥ }
{
    let mut rows = Vec::new(alloc);
    let mut workspace = in_root();
    for piece in pieces {
        if let Piece::Row { label, ref entries } = *piece {
            let row = row_at(alloc, code, contexts, needs, workspace, label, entries)?;
            rows.push(row)?;
        }
        workspace = workspace_behind(piece, workspace);
    }
    Ok(rows)
}
