//! Which lines the pieces of a listing come from.

ghost use Rattle.std.specs.Prelude.{◌≡◌, IfOk};
ghost use Rattle.code_pieces.specs.PieceViews.{pieces_of};

use crate::listing::Listing;
use code_pieces::Piece;
use std::alloc::{AllocError, Global};

/// From a piece on, code comes from a line.
#[derive(Clone, Copy)]
pub struct LineMark {
    /// How many pieces are before it.
    pub piece: usize,
    /// The number of the line.
    pub line: u32,
    /// How many lines are around it: that of each instance, and of each replicator of a `PAR`, which it is within. The
    /// next one outward is that of the last mark before it that has fewer.
    pub depth: u32,
}

/// The lines of the pieces so far.
#[derive(Drop)]
pub(crate) struct LineMarks {
    marks: Vec<LineMark>,
    /// The line that pieces come from now, 0 before the first one.
    line: u32,
    depth: u32,
}

/// Pieces, and which lines they come from.
#[derive(Drop)]
pub struct MarkedPieces {
    pub pieces: Vec<Piece>,
    pub marks: Vec<LineMark>,
}

impl LineMarks {
    /// No piece comes from any line.
    pub(crate) fn new(alloc: Global) -> LineMarks {
        LineMarks {
            marks: Vec::new(alloc),
            line: 0,
            depth: 0,
        }
    }

    /// No piece is there yet, but the next ones come from the same line.
    pub(crate) fn branch(&self, alloc: Global) -> LineMarks {
        LineMarks {
            marks: Vec::new(alloc),
            line: self.line,
            depth: self.depth,
        }
    }

    /// The marks.
    pub(crate) fn into_marks(self) -> Vec<LineMark> {
        self.marks
    }

    /// Whether the last mark is that of the piece with this number, as deep as now.
    fn is_last_at(&self, piece: usize) -> bool {
        match self.marks.last() {
            Some(last) => last.piece == piece && last.depth == self.depth,
            None => false,
        }
    }

    /// The piece with this number and those after it come from a line. Nothing is marked before the first line.
    fn mark(&mut self, piece: usize, line: u32) -> Result<(), AllocError> {
        self.line = line;
        if line == 0 {
            return Ok(());
        }
        if self.is_last_at(piece) {
            self.marks.pop();
        }
        self.marks.push(LineMark {
            piece,
            line,
            depth: self.depth,
        })?;
        Ok(())
    }

    /// More marks, of pieces that come after `before` others.
    fn mark_all(&mut self, before: usize, marks: &[LineMark]) -> Result<(), AllocError> {
        for mark in marks {
            self.marks.push(LineMark {
                piece: before.saturating_add(mark.piece),
                ..*mark
            })?;
        }
        Ok(())
    }
}

impl Listing {
    /// The pieces that come next are those of a line. The line before is the result.
    pub fn begin_line(&mut self, line: u32) -> Result<u32, AllocError>
        ensures { IfOk result (λ _. self.new ≡ self.old) }
    {
        let before = self.lines.line;
        let piece = self.code.len();
        self.lines.mark(piece, line)?;
        Ok(before)
    }

    /// The lines of the pieces that come next are within the line of those before.
    pub fn enter_line(&mut self)
        ensures { self.new ≡ self.old }
    {
        self.lines.depth = self.lines.depth.saturating_add(1);
    }

    /// The pieces that come next are again those of the line that others were within.
    pub fn leave_line(&mut self) -> Result<(), AllocError>
        ensures { IfOk result (λ _. self.new ≡ self.old) }
    {
        self.lines.depth = self.lines.depth.saturating_sub(1);
        let line = self.lines.line;
        let piece = self.code.len();
        self.lines.mark(piece, line)
    }

    /// The pieces that come next have these marks.
    pub(crate) fn take_marks(&mut self, marks: &[LineMark]) -> Result<(), AllocError>
        ensures { IfOk result (λ _. self.new ≡ self.old) }
    {
        let before = self.code.len();
        self.lines.mark_all(before, marks)
    }

    /// The pieces, and which lines they come from.
    pub fn into_marked(self) -> MarkedPieces
        ensures { pieces_of result.pieces.items ≡ self }
    {
        let Listing { code, lines, .. } = self;
        MarkedPieces {
            pieces: code.into_vec(),
            marks: lines.into_marks(),
        }
    }
}
