//! Code that grows piece by piece.

ghost use Rattle.std.specs.Prelude.{◌≡◌, ◌++◌, ◌∷◌, [], IfOk, ℤ, pos, true, length, nat_lt};
ghost use Rattle.prefix_decoder.specs.declared.function.Fun.TheVariants as fun;
ghost use Rattle.code_pieces.specs.Pieces.{Direct, TableAddress, operates, loads, stores, points, constant, below};
ghost use Rattle.code_pieces.specs.Pieces.{counted};
ghost use Rattle.code_pieces.specs.PieceViews.{pieces_of, piece_of};
ghost use Rattle.line_pieces.specs.Expressions.{back, exchanged};
ghost use Rattle.line_pieces.specs.declared.pieces.TheConstants.{GREATEST_COUNT};
ghost use Rattle.line_pieces.specs.Limits.{is_too_much};

use crate::marking::LineMarks;
use crate::noting::Notes;
use crate::pieces::{CountedPieces, GREATEST_COUNT};
use crate::work::Work;
use code_pieces::operations::{MINIMUM_INTEGER, REVERSE};
use code_pieces::{GREATEST_WORD, Piece};
use prefix_decoder::Fun;
use std::alloc::{AllocError, Global};
use std::marker::Model;
use std::rc::Rc;

/// Pieces of code in their order. If a call fails, some pieces more may have come.
#[derive(Drop)]
pub struct Listing {
    pub(crate) code: CountedPieces,
    pub notes: Notes,
    /// Which lines the pieces come from.
    pub(crate) lines: LineMarks,
    /// How many pieces there are in other listings.
    others: usize,
    /// What was done beside writing, for other listings too.
    pub(crate) work: Work,
}

impl Model for Listing {
    ghost use Rattle.std.specs.Prelude.{List};
    ghost use Rattle.code_pieces.specs.Pieces.{Piece};

    ghost Value = { List Piece };

    ghost view = { λ l. l.code };
}

/// A word of the frame as an operand, as far as words are counted.
#[tactic(auto, unfolding(code_pieces::specs::Pieces::counted))]
fn operand(word: u32) -> i32
    ensures { result ≡ pos (counted word) }
{
    word.min(GREATEST_WORD) as i32
}

impl Listing {
    /// No code.
    pub fn new(alloc: Global) -> Listing
        ensures { result ≡ [] }
    {
        Listing {
            code: CountedPieces::new(alloc),
            notes: Notes::new(alloc, 0),
            lines: LineMarks::new(alloc),
            others: 0,
            work: Work::nothing(),
        }
    }

    /// No code of a branch of a `PAR`, whose words begin with this one. The branches before it have `pieces` pieces.
    pub fn branch(&self, alloc: Global, first: u32, pieces: usize) -> Listing
        ensures { result ≡ [] }
    {
        let before = self.others.saturating_add(self.code.len());
        Listing {
            code: CountedPieces::new(alloc),
            notes: Notes::new(alloc, first),
            lines: self.lines.branch(alloc),
            others: before.saturating_add(pieces),
            work: self.work,
        }
    }

    /// The pieces.
    pub fn into_pieces(self) -> Vec<Piece>
        ensures { pieces_of result.items ≡ self }
    {
        self.code.into_vec()
    }

    /// Whether the pieces are too many for a module, those of other listings too. How many these are no clause says.
    pub fn is_full(&self) -> bool
        ensures own { nat_lt GREATEST_COUNT (length self.now) ≡ true → result ≡ true }
    {
        self.others.saturating_add(self.code.len()) > GREATEST_COUNT
    }

    /// Whether the code is too much for a module, where no more than this number of names are known at its rows.
    pub fn is_too_much(&self, names: u32) -> bool
        ensures { result ≡ is_too_much names self.now }
    {
        self.code.is_too_much(names)
    }

    /// One piece more.
    pub fn push(&mut self, piece: Piece) -> Result<(), AllocError>
        ensures { IfOk result (λ _. self.new ≡ self.old ++ piece_of piece ∷ []) }
    {
        self.code.push(piece)
    }

    /// An instruction.
    pub(crate) fn direct(&mut self, fun: Fun, operand: i32) -> Result<(), AllocError>
        ensures { IfOk result (λ _. self.new ≡ self.old ++ Direct fun operand ∷ []) }
    {
        self.push(Piece::Direct { fun, operand })
    }

    /// An operation.
    pub fn operate(&mut self, operation: i32) -> Result<(), AllocError>
        ensures { IfOk result (λ _. self.new ≡ self.old ++ operates operation ∷ []) }
    {
        self.direct(Fun::Operate, operation)
    }

    /// `ldl`
    pub fn load(&mut self, word: u32) -> Result<(), AllocError>
        ensures { IfOk result (λ _. self.new ≡ self.old ++ loads word ∷ []) }
    {
        self.direct(Fun::LoadLocal, operand(word))
    }

    /// `stl`
    pub fn store(&mut self, word: u32) -> Result<(), AllocError>
        ensures { IfOk result (λ _. self.new ≡ self.old ++ stores word ∷ []) }
    {
        self.direct(Fun::StoreLocal, operand(word))
    }

    /// `ldlp`
    pub fn point(&mut self, word: u32) -> Result<(), AllocError>
        ensures { IfOk result (λ _. self.new ≡ self.old ++ points word ∷ []) }
    {
        self.direct(Fun::LoadLocalPointer, operand(word))
    }

    /// Pushes a constant.
    pub fn constant(&mut self, value: i32) -> Result<(), AllocError>
        ensures { IfOk result (λ _. self.new ≡ self.old ++ constant value ∷ []) }
    {
        if value == i32::MIN {
            self.operate(MINIMUM_INTEGER)
        } else {
            self.direct(Fun::LoadConstant, value)
        }
    }

    /// Pushes what was stored in a temporary below what is in A.
    pub(crate) fn push_below(&mut self, temporary: u32) -> Result<(), AllocError>
        ensures { IfOk result (λ _. self.new ≡ self.old ++ below temporary) }
    {
        self.load(temporary)?;
        self.operate(REVERSE)
    }

    /// Pushes a left operand that waited in a temporary: below the right one that is in A, or on it where their order
    /// does not matter.
    pub(crate) fn push_back(&mut self, temporary: u32, in_order: bool) -> Result<(), AllocError>
        ensures { IfOk result (λ _. self.new ≡ self.old ++ back in_order temporary) }
    {
        self.load(temporary)?;
        self.exchange(in_order)
    }

    /// Exchanges what was pushed last with what is below it, unless their order does not matter.
    pub(crate) fn exchange(&mut self, in_order: bool) -> Result<(), AllocError>
        ensures { IfOk result (λ _. self.new ≡ self.old ++ exchanged in_order) }
    {
        if in_order {
            self.operate(REVERSE)?;
        }
        Ok(())
    }

    /// Pushes the address of a table.
    pub(crate) fn table(&mut self, values: &Rc<Vec<i32>>) -> Result<(), AllocError>
        ensures { IfOk result (λ _. self.new ≡ self.old ++ TableAddress values.now.value.items ∷ []) }
    {
        self.push(Piece::TableAddress(Rc::clone(values)?))
    }
}
