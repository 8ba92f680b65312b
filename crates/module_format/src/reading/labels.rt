//! Label rows.
#![tactic(auto, unfolding(crate::proofs::Opening::reading_labels))]

ghost use Rattle.std.specs.Prelude.{◌≡◌, None, map};
ghost use Rattle.module_format.specs.Contents.{label_of, procedure_of};
ghost use Rattle.module_format.specs.Offsets.{ProceduresRise};
ghost use Rattle.module_format.specs.ReadingRows.{label_offset_at, label_rows_at};
ghost use Rattle.module_format.specs.Taking.{Takes};

use crate::fault::FormatFaultKind;
use crate::listed::Labelled;
use crate::offsets::is_entry;
use crate::reading::cursor::Cursor;
use crate::reading::list::read_list;
use crate::rows::{LabelRow, ProcedureRow};

/// The offset of a label row, after a row at offset `low`.
pub(crate) fn read_label_offset(
    code_len: usize,
    procedures: &[ProcedureRow],
    low: u32,
    from: &mut Cursor<'_>,
) -> u32
    requires { ProceduresRise procedures.now }
    ensures { Takes (λ size. label_offset_at size code_len (map procedure_of procedures.now) low)
        from.old result from.new }
{
    let at = from.place();
    let offset = from.in_code(code_len);
    from.check(at, !is_entry(procedures, offset), FormatFaultKind::Range);
    from.check(at, low < offset, FormatFaultKind::Order);
    offset
}

/// As many label rows as a number says.
pub fn read_label_rows(
    code_len: usize,
    procedures: &[ProcedureRow],
    count: u32,
    from: &mut Cursor<'_>,
) -> Vec<LabelRow>
    requires { from.old.failure ≡ None → ProceduresRise procedures.now }
    ensures { Takes (λ size. label_rows_at size code_len (map procedure_of procedures.now) count)
        from.old (map label_of result.items) from.new }
{
    if from.has_failed() {
        return Vec::new(from.alloc());
    }
    let code = Labelled {
        code_len,
        procedures,
    };
    read_list(&code, 0, count, from)
}
