//! Which lines of a source the code of its module comes from.

ghost use Rattle.std.specs.Prelude.{◌≡◌, ℕ, List, IfOk, IsTrue, nat_eq, length, filter};
ghost use Rattle.std.specs.List.{All};
ghost use Rattle.std.specs.List.Sorted.{IsPermutation, IsSortedByKey};
ghost use Rattle.std.specs.Ordering.{nat_cmp};
ghost use Rattle.source_lines.specs.declared.entry.LineEntry.{LineEntry};
ghost use Rattle.compiler.specs.CodeLines.{IsOnLine, AreLinesOf, ends_in};

use crate::source::CompileFault;
use code_generator::{Code, code_of};
use code_pieces::{ConstantTables, Piece, apart, draft_code};
use line_pieces::{LineMark, MarkedPieces};
use module_builder::{Draft, GenFault, Layout, layout};
use module_format::Version;
use occam_layout::lines;
use occam_parser::parse;
use source_lines::LineEntry;
use std::alloc::{AllocError, Global};
use usage_checks::check;

/// How many ends of lines there are.
pub fn ends_in(source: &[u8]) -> usize
    ensures { result ≡ ends_in source.now }
{
    source.iter().filter(|byte| **byte == b'\n').count()
}

/// Places labels before a piece, one for each of the marks from one on that are there or before it. How many marks have
/// a label then is the result. The first label has the number `labels`.
fn push_places(
    marked: &mut Vec<Piece>,
    marks: &[LineMark],
    from: usize,
    piece: usize,
    labels: usize,
) -> Result<usize, AllocError> {
    for number in from..marks.len() {
        match marks.get(number) {
            Some(mark) if mark.piece <= piece => marked.push(Piece::Place {
                label: labels.saturating_add(number),
            })?,
            _ => return Ok(number),
        }
    }
    Ok(marks.len())
}

/// Pieces with a label more for each mark, which is where the mark is. The first one has the number `labels`.
fn with_places(
    alloc: Global,
    pieces: Vec<Piece>,
    marks: &[LineMark],
    labels: usize,
) -> Result<Vec<Piece>, AllocError> {
    let mut marked = Vec::new(alloc);
    let mut placed = 0;
    let mut before: usize = 0;
    for piece in pieces {
        placed = push_places(&mut marked, marks, placed, before, labels)?;
        marked.push(piece)?;
        before = before.saturating_add(1);
    }
    push_places(&mut marked, marks, placed, usize::MAX, labels)?;
    Ok(marked)
}

/// Where the labels of pieces with `labels` labels, and one for each mark, are in their code.
fn places_of(
    alloc: Global,
    pieces: Vec<Piece>,
    marks: &[LineMark],
    labels: usize,
) -> Result<Vec<Option<u32>>, GenFault> {
    let pieces = apart(alloc, with_places(alloc, pieces, marks, labels)?)?;
    let tables = ConstantTables::of(alloc, &pieces)?;
    let count = labels.saturating_add(marks.len());
    let mut draft = Draft::new(alloc, Version::Two);
    draft.code = draft_code(alloc, &pieces, count, &tables)?;
    if !draft.code.is_complete() {
        return Err(GenFault::Invalid);
    }
    let Layout { places, .. } = layout(alloc, &draft)?;
    Ok(places)
}

/// Whether a source with `ends` ends of lines has this line.
fn is_line(line: u32, ends: usize) -> bool
    ensures { IsTrue result → (entry : LineEntry) → entry.line ≡ line → IsOnLine ends entry }
{
    line != 0 && (line - 1) as usize <= ends
}

/// An entry more, if its line is one of a source with `ends` ends of lines and its place is known.
fn push_entry(
    entries: &mut Vec<LineEntry>,
    mark: LineMark,
    place: Option<u32>,
    ends: usize,
) -> Result<(), AllocError>
    ensures { IfOk result (λ _. All (IsOnLine ends) entries.old.items → All (IsOnLine ends) entries.new.items) }
{
    let Some(offset) = place else {
        return Ok(());
    };
    if !is_line(mark.line, ends) {
        return Ok(());
    }
    entries.push(LineEntry {
        offset,
        line: mark.line,
        depth: mark.depth,
    })?;
    Ok(())
}

/// The entries of marks, whose labels have the numbers from `labels` on, of a source with `ends` ends of lines.
fn entries_of(
    alloc: Global,
    marks: &[LineMark],
    places: &[Option<u32>],
    labels: usize,
    ends: usize,
) -> Result<Vec<LineEntry>, AllocError>
    ensures { IfOk result (λ entries. All (IsOnLine ends) entries.items) }
{
    let mut entries = Vec::new(alloc);
    for number in 0..marks.len() {
        if let Some(mark) = marks.get(number) {
            let place = places.get(labels.saturating_add(number)).copied().flatten();
            push_entry(&mut entries, *mark, place, ends)?;
        }
    }
    Ok(entries)
}

/// Sorts entries by their offsets. Those at one offset stay in their order.
fn sort(entries: &mut Vec<LineEntry>) -> Result<(), AllocError>
    ensures all { IsPermutation entries.old.items entries.new.items }
    ensures sorted { IfOk result (λ _. IsSortedByKey (λ (entry : LineEntry). entry.offset) nat_cmp entries.new.items) }
{
    entries.sort_by_key(|entry| entry.offset)?;
    Ok(())
}

/// The lines of code, of a source with `ends` ends of lines.
fn lines_of(alloc: Global, code: Code, ends: usize) -> Result<Vec<LineEntry>, GenFault>
    ensures rise { IfOk result (λ v. IsSortedByKey (λ (entry : LineEntry). entry.offset) nat_cmp v.items) }
    ensures on_lines { IfOk result (λ v. All (IsOnLine ends) v.items) }
{
    let Code { listing, labels } = code;
    let MarkedPieces { pieces, marks } = listing.into_marked();
    let places = places_of(alloc, pieces, &marks, labels)?;
    let mut entries = entries_of(alloc, &marks, &places, labels, ends)?;
    sort(&mut entries)?;
    Ok(entries)
}

/// Which lines of a source the code of its module comes from, by offsets. That they are these lines no clause says.
///
/// # Errors
///
/// A source that becomes a module fails here only if memory runs out.
pub fn code_lines(alloc: Global, source: &[u8]) -> Result<Vec<LineEntry>, CompileFault>
    ensures { IfOk result (λ entries. AreLinesOf source.now entries.items) }
{
    let rows = lines(alloc, source)?;
    let program = parse(alloc, &rows)?;
    let checked = check(alloc, program)?;
    let code = code_of(alloc, &checked)?;
    let entries = lines_of(alloc, code, ends_in(source))?;
    Ok(entries)
}
