//! Rows at code offsets.

ghost use Rattle.std.specs.Prelude.{◌≡◌, ◌==◌, ℕ, map, MatchOption};
ghost use Rattle.std.specs.List.{list_any};
ghost use Rattle.std.specs.List.Sorted.{IsNonDecreasingBy};
ghost use Rattle.module_format.specs.Contents.{procedure_of};
ghost use Rattle.module_format.specs.Offsets.{IsNowhere, IsFirst, ProceduresRise};

use crate::rows::{LabelRow, ProcedureRow};

/// A row at a code offset.
pub trait AtOffset: Drop {
    ghost place: { Self → ℕ };

    fn place(&self) -> u32
        ensures { result ≡ place self.now };
}

impl AtOffset for LabelRow {
    ghost place = { λ row. row.offset };

    fn place(&self) -> u32 {
        self.offset
    }
}

impl AtOffset for ProcedureRow {
    ghost place = { λ row. row.entry };

    fn place(&self) -> u32 {
        self.entry
    }
}

/// The first row at an offset, with its index, of rows that rise. It takes logarithmic time.
pub fn row_at<T: AtOffset>(rows: &[T], offset: u32) -> Option<(usize, &T)>
    requires { IsNonDecreasingBy T.place rows.now }
    ensures { MatchOption result (IsNowhere T.place rows.now offset)
        (λ found. IsFirst T.place rows.now offset found.0 found.1.now) }
{
    let index = rows.partition_point(|row| row.place() < offset);
    let row = rows.get(index)?;
    if row.place() != offset {
        return None;
    }
    Some((index, row))
}

/// Whether a procedure begins at an offset.
pub(crate) fn is_entry(rows: &[ProcedureRow], offset: u32) -> bool
    requires { ProceduresRise rows.now }
    ensures { result ≡ list_any (λ p. p.entry == offset) (map procedure_of rows.now) }
{
    row_at(rows, offset).is_some()
}
