//! Rows kept apart: no two are at one place.

ghost use Rattle.std.specs.Prelude.{◌≡◌, ◌++◌, IfOk, IfErr};
ghost use Rattle.code_pieces.specs.PieceViews.{piece_of, pieces_of};
ghost use Rattle.code_pieces.specs.Laying.{is_row, at_row_behind, apart_piece, apart};

use crate::piece::Piece;
use module_builder::GenFault;
use prefix_decoder::Fun;
use std::alloc::Global;

/// Whether a piece is a row.
fn is_row(piece: &Piece) -> bool
    ensures { result ≡ is_row (piece_of piece.now) }
{
    matches!(*piece, Piece::Row { .. })
}

/// Whether a row may be right before what is after a piece.
fn at_row_behind(piece: &Piece, at_row: bool) -> bool
    ensures { result ≡ at_row_behind (piece_of piece.now) at_row }
{
    match *piece {
        Piece::Row { .. } => true,
        Piece::Place { .. } | Piece::Within(_) | Piece::Par(_) => at_row,
        _ => false,
    }
}

/// Appends a piece, and `ldc 0` before a row that would be at another one.
fn push_apart(pieces: &mut Vec<Piece>, at_row: bool, piece: Piece) -> Result<(), GenFault>
    ensures ok { IfOk result (λ _. pieces_of pieces.new.items
        ≡ pieces_of pieces.old.items ++ apart_piece at_row (piece_of piece)) }
    ensures err { IfErr result (λ e. e ≡ GenFault.Memory) }
{
    if at_row && is_row(&piece) {
        let filler = Piece::Direct {
            fun: Fun::LoadConstant,
            operand: 0,
        };
        pieces.push(filler)?;
    }
    pieces.push(piece)?;
    Ok(())
}

/// The pieces, with `ldc 0` before each row that would be at the code's start or at another row.
///
/// # Errors
///
/// `Memory` if memory runs out.
pub fn apart(alloc: Global, pieces: Vec<Piece>) -> Result<Vec<Piece>, GenFault>
    ensures ok { IfOk result (λ v. pieces_of v.items ≡ apart (pieces_of pieces.items)) }
    ensures err { IfErr result (λ e. e ≡ GenFault.Memory) }
{
    let mut separate = Vec::with_capacity(alloc, pieces.len())?;
    let mut at_row = true;
    for piece in pieces {
        let behind = at_row_behind(&piece, at_row);
        push_apart(&mut separate, at_row, piece)?;
        at_row = behind;
    }
    Ok(separate)
}
