//! Writing what a `PAR` has beside what its branches do. If a function fails, some pieces more may have come.

ghost use Rattle.std.specs.Prelude.{◌≡◌, ◌++◌, map, IfOk};
ghost use Rattle.code_pieces.specs.PieceViews.{pieces_of};
ghost use Rattle.line_pieces.specs.Opening.{emptied, block_code, start_code, end_code, branches_code, row_in};

use crate::branches::Branch;
use crate::facts::push_made;
use crate::listing::Listing;
use crate::setting::word_after;
use code_pieces::{ParBranch, Piece, operations};
use module_builder::GenFault;
use module_format::ChannelRow;
use std::alloc::{AllocError, Global};

impl Listing {
    /// Channels are empty.
    pub fn write_empty_channels(&mut self, channels: &[ChannelRow]) -> Result<(), GenFault>
        ensures { IfOk result (λ _. self.new ≡ self.old ++ emptied channels.now) }
    {
        for channel in channels {
            self.operate(operations::MINIMUM_INTEGER)?;
            self.store(channel.word.unsigned_abs())?;
        }
        Ok(())
    }

    /// The block of a `PAR` at the workspace: where the process goes on that begins it, by a label that distances are
    /// counted from, and how many processes end.
    pub fn write_block(
        &mut self,
        depth: u32,
        from: usize,
        successor: usize,
        ends: i32,
    ) -> Result<(), GenFault>
        ensures { IfOk result (λ _. self.new ≡ self.old ++ block_code depth from successor ends) }
    {
        self.push(Piece::Distance {
            from,
            to: successor,
        })?;
        self.operate(operations::LOAD_POINTER_TO_INSTRUCTION)?;
        self.push(Piece::Place { label: from })?;
        self.store(depth)?;
        self.constant(ends)?;
        self.store(word_after(depth, 1))?;
        Ok(())
    }

    /// A branch starts, by a label that distances are counted from.
    pub fn write_start(
        &mut self,
        from: usize,
        branch: &Branch,
        successor: Option<usize>,
    ) -> Result<(), GenFault>
        ensures { IfOk result (λ _. self.new
            ≡ self.old ++ start_code from branch.now.entry branch.now.depth successor) }
    {
        self.push(Piece::Distance {
            from,
            to: branch.entry,
        })?;
        self.point(branch.depth)?;
        self.push(Piece::StartBranch {
            entry: branch.entry,
            successor,
        })?;
        self.push(Piece::Place { label: from })?;
        Ok(())
    }

    /// A process of a `PAR` ends, whose block is at this word.
    pub fn write_end(&mut self, block: u32) -> Result<(), GenFault>
        ensures { IfOk result (λ _. self.new ≡ self.old ++ end_code block) }
    {
        self.point(block)?;
        self.operate(operations::END_PROCESS)?;
        Ok(())
    }

    /// What a branch uses, and the lines of its pieces.
    fn note_branch(&mut self, branch: &Branch) -> Result<(), AllocError>
        ensures { IfOk result (λ _. self.new ≡ self.old) }
    {
        self.notes.note_all(&branch.notes)?;
        self.take_marks(&branch.marks)
    }

    /// The pieces of a branch.
    fn take_pieces(&mut self, pieces: Vec<Piece>) -> Result<(), AllocError>
        ensures { IfOk result (λ _. self.new ≡ self.old ++ pieces_of pieces.items) }
    {
        for piece in pieces {
            self.push(piece)?;
        }
        Ok(())
    }

    /// The code of a branch.
    fn take_branch(&mut self, branch: Branch) -> Result<ParBranch, GenFault>
        ensures code { IfOk result (λ _. self.new ≡ self.old ++ pieces_of branch.pieces.items) }
        ensures row { IfOk result (λ row. row ≡ branch.row) }
    {
        self.note_branch(&branch)?;
        let Branch { pieces, row, .. } = branch;
        self.take_pieces(pieces)?;
        Ok(row)
    }

    /// The code of all branches.
    pub fn take_branches(
        &mut self,
        alloc: Global,
        branches: Vec<Branch>,
    ) -> Result<Vec<ParBranch>, GenFault>
        ensures code { IfOk result (λ _. self.new ≡ self.old ++ branches_code branches.items) }
        ensures rows { IfOk result (λ rows. rows.items ≡ map row_in branches.items) }
    {
        let mut rows = Vec::new(alloc);
        for branch in branches {
            push_made(&mut rows, self.take_branch(branch))?;
        }
        Ok(rows)
    }
}
