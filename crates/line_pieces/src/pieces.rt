//! Pieces of code, with how many rows are among them and how much these say.

ghost use Rattle.std.specs.Prelude.{◌≡◌, ◌+◌, ◌++◌, ◌∷◌, [], length, IfOk, IfErr, Ok};
ghost use Rattle.code_pieces.specs.PieceViews.{pieces_of, piece_of};
ghost use Rattle.line_pieces.specs.Limits.{rows_at, said_at, rows_in, said_in, is_too_much};

use code_pieces::Piece;
use std::alloc::{AllocError, Global};
use std::marker::Model;

/// How many rows a module has at most.
pub const GREATEST_ROWS: usize = 8_192;

/// How many pieces a module has at most: each is a byte of its code at least, but for its rows.
pub const GREATEST_COUNT: usize = 262_143 + 8_192;

/// How many entries all rows have at most.
pub const GREATEST_SAID: usize = 4_194_304;

/// How many names are looked at for all rows at most. One takes 17 nanoseconds at most.
pub(crate) const GREATEST_LOOKS: usize = 270_000_000;

/// Pieces of code in their order. If a call fails, they are as they were.
#[derive(Drop)]
pub(crate) struct CountedPieces {
    pieces: Vec<Piece>,
    /// How many rows are among them.
    rows: usize,
    /// How many entries the rows have.
    said: usize,
}

impl Model for CountedPieces {
    ghost use Rattle.std.specs.Prelude.{◌≡◌, List};
    ghost use Rattle.code_pieces.specs.Pieces.{Piece};
    ghost use Rattle.code_pieces.specs.PieceViews.{pieces_of};
    ghost use Rattle.line_pieces.specs.Limits.{rows_in, said_in};

    ghost Value = { List Piece };

    ghost view = { λ c. pieces_of c.pieces.items };

    ghost invariant = { λ c. (c.rows ≡ rows_in (pieces_of c.pieces.items))
        × (c.said ≡ said_in (pieces_of c.pieces.items)) };
}

/// A row is one.
fn rows_at(piece: &Piece) -> usize
    ensures { result ≡ rows_at (piece_of piece.now) }
{
    match piece {
        Piece::Row { .. } => 1,
        _ => 0,
    }
}

/// How many entries a row has.
fn said_at(piece: &Piece) -> usize
    ensures { result ≡ said_at (piece_of piece.now) }
{
    match piece {
        Piece::Row { entries, .. } => entries.len(),
        _ => 0,
    }
}

/// How many rows are among some pieces, and how many entries these have.
#[derive(Clone, Copy)]
struct RowSums {
    rows: usize,
    said: usize,
}

/// One item more, if there are sums with it, which are the result.
fn push_counted<T: Drop>(
    items: &mut Vec<T>,
    sums: Result<RowSums, AllocError>,
    item: T,
) -> Result<RowSums, AllocError>
    ensures sums { IfOk result (λ s. sums ≡ Ok s) }
    ensures more { IfOk result (λ _. items.new.items ≡ items.old.items ++ item ∷ []) }
    ensures same { IfErr result (λ _. items.new.items ≡ items.old.items) }
{
    let sums = sums?;
    items.push(item)?;
    Ok(sums)
}

impl CountedPieces {
    /// No pieces.
    pub(crate) fn new(alloc: Global) -> CountedPieces
        ensures { result ≡ [] }
    {
        CountedPieces {
            pieces: Vec::new(alloc),
            rows: 0,
            said: 0,
        }
    }

    /// How many pieces there are.
    pub(crate) fn len(&self) -> usize
        ensures { result ≡ length self.now }
    {
        self.pieces.len()
    }

    /// The pieces.
    pub(crate) fn as_slice(&self) -> &[Piece]
        ensures { pieces_of result.now ≡ self.now }
    {
        &self.pieces
    }

    /// The pieces.
    pub(crate) fn into_vec(self) -> Vec<Piece>
        ensures { pieces_of result.items ≡ self }
    {
        self.pieces
    }

    /// The sums with one piece more.
    fn sums_with(&self, piece: &Piece) -> Result<RowSums, AllocError>
        ensures rows { IfOk result (λ s. s.rows ≡ rows_in self.now + rows_at (piece_of piece.now)) }
        ensures said { IfOk result (λ s. s.said ≡ said_in self.now + said_at (piece_of piece.now)) }
    {
        let rows = self.rows.checked_add(rows_at(piece));
        let said = self.said.checked_add(said_at(piece));
        match (rows, said) {
            (Some(rows), Some(said)) => Ok(RowSums { rows, said }),
            _ => Err(AllocError),
        }
    }

    /// One piece more.
    pub(crate) fn push(&mut self, piece: Piece) -> Result<(), AllocError>
        ensures { IfOk result (λ _. self.new ≡ self.old ++ piece_of piece ∷ []) }
    {
        let sums = self.sums_with(&piece);
        let sums = push_counted(&mut self.pieces, sums, piece)?;
        self.rows = sums.rows;
        self.said = sums.said;
        Ok(())
    }

    /// Whether the pieces are too much for a module, where no more than this number of names are known at their rows.
    #[tactic(auto, unfolding(crate::specs::Limits::is_too_much))]
    pub(crate) fn is_too_much(&self, names: u32) -> bool
        ensures { result ≡ is_too_much names self.now }
    {
        self.pieces.len() > GREATEST_COUNT
            || self.rows > GREATEST_ROWS
            || self.said > GREATEST_SAID
            || self.rows.saturating_mul(names as usize) > GREATEST_LOOKS
    }
}
