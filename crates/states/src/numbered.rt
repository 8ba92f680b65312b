//! Label rows with their numbers.

ghost use Rattle.std.specs.Prelude.{◌≡◌, IfSome, MatchOption, None, Some};
ghost use Rattle.module_format.specs.Contents.{label_of, label_at};
ghost use Rattle.states.specs.Remembered.{numbered_label};

use certificate::Module;
use module_format::{LabelRow, row_at};

/// A label row.
#[derive(Clone, Copy)]
pub(crate) struct Numbered<'a> {
    /// Its number among the rows.
    pub label: usize,
    pub row: &'a LabelRow,
}

/// The label row at a code offset, found in logarithmic time.
pub(crate) fn numbered_row<'a>(module: &'a Module, offset: u32) -> Option<Numbered<'a>>
    ensures found { MatchOption result (label_at «module».now offset ≡ None)
        (λ found. label_at «module».now offset ≡ Some (label_of found.row.now)) }
    ensures number { IfSome result
        (λ found. numbered_label «module».now found.label ≡ Some (label_of found.row.now)) }
{
    let (label, row) = row_at(&module.tables().labels, offset)?;
    Some(Numbered { label, row })
}
