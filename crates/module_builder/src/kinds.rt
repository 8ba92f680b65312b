//! The four kinds of rows.

ghost use Rattle.std.specs.Prelude.{◌≡◌, IfOk};
ghost use Rattle.module_builder.specs.Assembled.{first_entry};
ghost use Rattle.module_builder.specs.Kinds.{Kind, procedures, labels, pars, tables};

use crate::draft::ContextName;
use crate::item::Label;
use crate::layouts::Layout;
use crate::placing::{label_offset, placed_branches, placed_entries, placed_stack};
use module_format::{LabelRow, ParRow, ProcedureRow, TableRow};
use std::alloc::{AllocError, Global};

/// A row of a draft.
pub(crate) trait Row {
    /// A row of a file.
    type Placed: Drop;

    ghost kind: { Kind Self Self.Placed };

    /// The number by which a file orders the rows of its kind.
    fn key(&self, layout: &Layout) -> u32
        ensures { result ≡ kind.key layout.now.places.items self.now };

    /// The context that it names; the root if it names none.
    fn context(&self) -> ContextName
        ensures { result ≡ kind.context self.now };

    /// The row of a file, in the context with this number.
    fn placed(
        &self,
        alloc: Global,
        layout: &Layout,
        context: u16,
    ) -> Result<Self::Placed, AllocError>
        ensures { IfOk result (λ row. kind.view row ≡ kind.placed layout.now.places.items context self.now) };
}

impl Row for ProcedureRow<Label> {
    type Placed = ProcedureRow;

    ghost kind = { procedures };

    fn key(&self, layout: &Layout) -> u32 {
        label_offset(layout, self.entry)
    }

    fn context(&self) -> ContextName {
        ContextName::Root
    }

    fn placed(
        &self,
        alloc: Global,
        layout: &Layout,
        _context: u16,
    ) -> Result<ProcedureRow, AllocError> {
        Ok(ProcedureRow {
            entry: label_offset(layout, self.entry),
            lo: self.lo,
            hi: self.hi,
            number: self.number,
            parameters: Vec::from_slice(alloc, &self.parameters)?,
        })
    }
}

impl Row for LabelRow<Label, ContextName> {
    type Placed = LabelRow;

    ghost kind = { labels };

    fn key(&self, layout: &Layout) -> u32 {
        label_offset(layout, self.offset)
    }

    fn context(&self) -> ContextName {
        self.context
    }

    fn placed(&self, alloc: Global, layout: &Layout, context: u16) -> Result<LabelRow, AllocError> {
        Ok(LabelRow {
            offset: label_offset(layout, self.offset),
            context,
            depth: self.depth,
            number: self.number,
            stack: placed_stack(layout, &self.stack),
            entries: placed_entries(alloc, layout, &self.entries)?,
        })
    }
}

/// Where a PAR's first branch begins; 0 if it has none.
fn first_entry(layout: &Layout, row: &ParRow<Label, ContextName>) -> u32
    ensures { result ≡ first_entry layout.now.places.items row.now }
{
    match row.branches.first() {
        Some(branch) => label_offset(layout, branch.entry),
        None => 0,
    }
}

impl Row for ParRow<Label, ContextName> {
    type Placed = ParRow;

    ghost kind = { pars };

    fn key(&self, layout: &Layout) -> u32 {
        first_entry(layout, self)
    }

    fn context(&self) -> ContextName {
        self.context
    }

    fn placed(&self, alloc: Global, layout: &Layout, context: u16) -> Result<ParRow, AllocError> {
        Ok(ParRow {
            context,
            depth: self.depth,
            block: self.block,
            successor: label_offset(layout, self.successor),
            channels: Vec::from_slice(alloc, &self.channels)?,
            branches: placed_branches(alloc, layout, &self.branches)?,
        })
    }
}

impl Row for TableRow {
    type Placed = TableRow;

    ghost kind = { tables };

    fn key(&self, _layout: &Layout) -> u32 {
        self.start
    }

    fn context(&self) -> ContextName {
        ContextName::Root
    }

    fn placed(
        &self,
        _alloc: Global,
        _layout: &Layout,
        _context: u16,
    ) -> Result<TableRow, AllocError> {
        Ok(*self)
    }
}
