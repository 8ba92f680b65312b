//! Sets of code offsets.

ghost use Rattle.std.specs.Prelude.{◌≡◌, ◌∷◌, [], ℕ, List, Bool, map, IfOk};
ghost use Rattle.std.specs.List.{flat_map};
ghost use Rattle.module_format.specs.Contents.{branch_of};
ghost use Rattle.module_format.specs.Pars.{entries_of};
ghost use Rattle.certificate.specs.Starts.{has_mark, Adds};

use module_format::{BranchRow, LabelRow, ParRow, ProcedureRow};
use std::alloc::{AllocError, Global};
use std::marker::Model;

/// A set of code offsets. It takes a byte for each offset up to the greatest.
#[derive(Drop)]
pub(crate) struct Marks {
    marks: Vec<bool>,
}

impl Model for Marks {
    ghost Value = { List Bool };

    ghost view = { λ m. m.marks.items };
}

impl Marks {
    pub(crate) fn new(alloc: Global) -> Marks
        ensures { result ≡ [] }
    {
        Marks {
            marks: Vec::new(alloc),
        }
    }

    pub(crate) fn contains(&self, offset: u32) -> bool
        ensures { result ≡ has_mark self.now offset }
    {
        match self.marks.get(offset as usize) {
            Some(mark) => *mark,
            None => false,
        }
    }

    pub(crate) fn add(&mut self, offset: u32) -> Result<(), AllocError>
        ensures { IfOk result (λ _. Adds self.old (offset ∷ []) self.new) }
    {
        let place = offset as usize;
        if place >= self.marks.len() {
            self.marks.resize(place + 1, false)?;
        }
        self.marks[place] = true;
        Ok(())
    }
}

/// A row that says where instructions start.
pub(crate) trait Starting: Drop {
    /// The offsets at which they do.
    ghost offsets: { Self → List ℕ };

    /// Marks these offsets.
    fn mark(&self, marks: &mut Marks) -> Result<(), AllocError>
        ensures { IfOk result (λ _. Adds marks.old (offsets self.now) marks.new) };
}

/// Marks the offsets of all rows.
pub(crate) fn mark_all<T: Starting>(rows: &[T], marks: &mut Marks) -> Result<(), AllocError>
    ensures { IfOk result (λ _. Adds marks.old (flat_map T.offsets rows.now) marks.new) }
{
    for row in rows {
        row.mark(marks)?;
    }
    Ok(())
}

impl Starting for LabelRow {
    ghost offsets = { λ row. row.offset ∷ [] };

    fn mark(&self, marks: &mut Marks) -> Result<(), AllocError> {
        marks.add(self.offset)
    }
}

impl Starting for ProcedureRow {
    ghost offsets = { λ row. row.entry ∷ [] };

    fn mark(&self, marks: &mut Marks) -> Result<(), AllocError> {
        marks.add(self.entry)
    }
}

impl Starting for BranchRow {
    ghost offsets = { λ row. row.entry ∷ [] };

    fn mark(&self, marks: &mut Marks) -> Result<(), AllocError> {
        marks.add(self.entry)
    }
}

impl Starting for ParRow {
    ghost offsets = { λ row. row.successor ∷ entries_of (map branch_of row.branches.items) };

    fn mark(&self, marks: &mut Marks) -> Result<(), AllocError> {
        marks.add(self.successor)?;
        mark_all(&self.branches, marks)
    }
}
