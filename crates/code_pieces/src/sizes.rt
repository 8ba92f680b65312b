//! The bytes of pieces.

ghost use Rattle.std.specs.Prelude.{◌≡◌, ◌≤◌, ◌+◌, IfOk, IfErr};
ghost use Rattle.code_pieces.specs.PieceViews.{piece_of, pieces_of};
ghost use Rattle.code_pieces.specs.Laying.{first_one, without_one, sizes_of};
ghost use Rattle.code_pieces.specs.Laying.{size_of, lengths_behind};

use crate::piece::Piece;
use module_builder::GenFault;
use std::alloc::Global;

/// The first of lengths, 0 if there is none, and the others.
fn first_one(lengths: &[u8]) -> (u32, &[u8])
    ensures first { result.0 ≡ first_one lengths.now }
    ensures small { result.0 ≤ 255 }
    ensures rest { result.1.now ≡ without_one lengths.now }
{
    match lengths.split_first() {
        Some((first, rest)) => (u32::from(*first), rest),
        None => (0, lengths),
    }
}

/// The bytes of a piece, whose items are the first of these lengths, and the lengths of the items after it.
fn size_of<'a>(piece: &Piece, lengths: &'a [u8]) -> (u32, &'a [u8])
    ensures size { result.0 ≡ size_of (piece_of piece.now) lengths.now }
    ensures rest { result.1.now ≡ lengths_behind (piece_of piece.now) lengths.now }
{
    match *piece {
        Piece::Row { .. } | Piece::Place { .. } | Piece::Within(_) | Piece::Par(_) => (0, lengths),
        Piece::LoopBack { .. } => {
            let (load, rest) = first_one(lengths);
            let (loop_end, rest) = first_one(rest);
            (load + loop_end, rest)
        }
        _ => first_one(lengths),
    }
}

/// The bytes of each piece, by those of the items.
///
/// # Errors
///
/// `Memory` if memory runs out.
pub fn sizes_of(alloc: Global, pieces: &[Piece], lengths: &[u8]) -> Result<Vec<u32>, GenFault>
    ensures ok { IfOk result (λ v. v.items ≡ sizes_of (pieces_of pieces.now) lengths.now) }
    ensures err { IfErr result (λ e. e ≡ GenFault.Memory) }
{
    let mut sizes = Vec::with_capacity(alloc, pieces.len())?;
    let mut rest = lengths;
    for piece in pieces {
        let (size, behind) = size_of(piece, rest);
        sizes.push(size)?;
        rest = behind;
    }
    Ok(sizes)
}
