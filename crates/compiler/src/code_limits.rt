//! The limits that the pieces of code are above.

use code_pieces::{BASE, Needs, Piece, words_taken};
use line_pieces::{LineMark, MarkedPieces};
use module_builder::GenFault;
use module_format::MAX_BUDGET;
use prefix_decoder::encode;
use program_walk::{Excess, Limit};
use std::alloc::{AllocError, Global};
use std::slice::from_ref;

/// The least number of bytes that a piece takes.
fn least_size(piece: &Piece) -> u32 {
    match piece {
        Piece::Direct { fun, operand } => encode(*fun, *operand).len() as u32,
        Piece::Jump { .. }
        | Piece::JumpUnless { .. }
        | Piece::Distance { .. }
        | Piece::StartBranch { .. } => 1,
        Piece::Select { .. } => 2,
        Piece::LoopBack { .. } | Piece::TableAddress(_) => 3,
        Piece::Row { .. } | Piece::Place { .. } | Piece::Within(_) | Piece::Par(_) => 0,
    }
}

/// The line that the piece with this number comes from, 0 if it is none.
fn line_of(marks: &[LineMark], number: usize) -> u32 {
    let mut line = 0;
    for mark in marks {
        if mark.piece <= number {
            line = mark.line;
        }
    }
    line
}

/// Whether one of these tables has these values.
fn is_among(tables: &[&[i32]], values: &[i32]) -> bool {
    for table in tables {
        if *table == values {
            return true;
        }
    }
    false
}

/// The tables that code reads, if they are too many, and the line with which they are.
fn many_tables(alloc: Global, marked: &MarkedPieces) -> Result<Option<Excess>, AllocError> {
    let mut tables: Vec<&[i32]> = Vec::new(alloc);
    for (number, piece) in marked.pieces.iter().enumerate() {
        if let Piece::TableAddress(ref values) = *piece
            && !is_among(&tables, values)
        {
            tables.push(values)?;
            let excess = Excess::of(
                line_of(&marked.marks, number),
                Limit::Tables,
                tables.len() as u64,
            );
            if excess.is_some() {
                return Ok(excess);
            }
        }
    }
    Ok(None)
}

/// The length of code, if it is too long whatever its distances are, and the line with which it is.
fn long_code(marked: &MarkedPieces) -> Option<Excess> {
    let mut bytes: u64 = 0;
    for (number, piece) in marked.pieces.iter().enumerate() {
        bytes = bytes.saturating_add(u64::from(least_size(piece)));
        if bytes > Limit::Bytes.most() {
            return Excess::of(line_of(&marked.marks, number), Limit::Bytes, bytes);
        }
    }
    None
}

/// The words that code uses, if they are too many, and the line with which they are.
fn many_words(marked: &MarkedPieces) -> Option<Excess> {
    for (number, piece) in marked.pieces.iter().enumerate() {
        let words = u64::from(BASE).saturating_add(u64::from(words_taken(from_ref(piece))));
        if words > Limit::Data.most() {
            return Excess::of(line_of(&marked.marks, number), Limit::Data, words);
        }
    }
    None
}

/// Whether pieces, however short they are, execute more than a budget may be.
fn is_over_budget(alloc: Global, pieces: &[Piece], labels: usize) -> Result<bool, AllocError> {
    let sizes: Vec<u32> = pieces.iter().map(least_size).collect(alloc)?;
    match Needs::of(alloc, pieces, &sizes, labels) {
        Ok(_) | Err(GenFault::Invalid) => Ok(false),
        Err(GenFault::Limit) => Ok(true),
        Err(GenFault::Memory) => Err(AllocError),
    }
}

/// The last piece from which on code executes more than a budget may be, if there is one.
fn last_over_budget(
    alloc: Global,
    pieces: &[Piece],
    labels: usize,
) -> Result<Option<usize>, AllocError> {
    if !is_over_budget(alloc, pieces, labels)? {
        return Ok(None);
    }
    let mut over: usize = 0;
    let mut within = pieces.len();
    for _ in 0..usize::BITS {
        let middle = over.saturating_add(within.saturating_sub(over) / 2);
        if middle == over {
            break;
        }
        if is_over_budget(alloc, pieces.get(middle..).unwrap_or(&[]), labels)? {
            over = middle;
        } else {
            within = middle;
        }
    }
    Ok(Some(over))
}

/// The steps that code takes, if they are surely too many, and the line from which on they are.
fn many_steps(
    alloc: Global,
    marked: &MarkedPieces,
    labels: usize,
) -> Result<Option<Excess>, AllocError> {
    match last_over_budget(alloc, &marked.pieces, labels)? {
        Some(number) => {
            let line = line_of(&marked.marks, number);
            Ok(Excess::of(line, Limit::Budget, MAX_BUDGET + 1))
        }
        None => Ok(None),
    }
}

/// What code with so many labels is above: its length, or else its words, the number of its tables, or its steps.
pub(crate) fn excess_of_code(
    alloc: Global,
    marked: &MarkedPieces,
    labels: usize,
) -> Result<Option<Excess>, AllocError> {
    let excess = long_code(marked).or(many_words(marked));
    if excess.is_some() {
        return Ok(excess);
    }
    let excess = many_tables(alloc, marked)?;
    if excess.is_some() {
        return Ok(excess);
    }
    many_steps(alloc, marked, labels)
}
