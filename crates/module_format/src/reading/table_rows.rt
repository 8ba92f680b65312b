//! Table rows.

ghost use Rattle.std.specs.Prelude.{◌≡◌, ◌≤◌, ◌<◌, None};
ghost use Rattle.std.specs.List.{list_all};
ghost use Rattle.module_format.specs.Procedures.{words_in_bytes};
ghost use Rattle.module_format.specs.ReadingRows.{table_start_at, table_end_at, lies_between, table_rows_at};
ghost use Rattle.module_format.specs.Taking.{Takes};

use crate::fault::FormatFaultKind;
use crate::listed::Constants;
use crate::reading::cursor::Cursor;
use crate::reading::list::read_list;
use crate::rows::TableRow;
use crate::rules::is_multiple_of_four;
use byteorder::{ByteOrder, LittleEndian};

/// The first byte of a table, after those that end at `low`.
#[tactic(auto, unfolding(crate::specs::ReadingRows::table_start_at, crate::specs::Reading::tested))]
pub(crate) fn read_table_start(low: u32, from: &mut Cursor<'_>) -> u32
    ensures { Takes (λ size. table_start_at size low) from.old result from.new }
{
    let at = from.place();
    let start = from.u32();
    from.check(at, is_multiple_of_four(start), FormatFaultKind::Range);
    from.check(at, low <= start, FormatFaultKind::Order);
    start
}

/// The end of a table in `const_len` bytes of constants.
#[tactic(auto, unfolding(crate::specs::ReadingRows::table_end_at, crate::specs::Reading::tested))]
pub(crate) fn read_table_end(const_len: usize, start: u32, from: &mut Cursor<'_>) -> u32
    ensures takes { Takes (λ size. table_end_at size const_len start) from.old result from.new }
    ensures inside { from.new.failure ≡ None → (start < result) × (result ≤ const_len) }
{
    let at = from.place();
    let end = from.u32();
    let is_inside = is_multiple_of_four(end) && start < end && end as usize <= const_len;
    from.check(at, is_inside, FormatFaultKind::Range);
    end
}

/// Whether all words that the bytes are lie from `lo` to `hi`.
#[tactic(auto, using(crate::proofs::KeepingLaws::words_step, crate::proofs::KeepingLaws::words_end))]
pub fn words_lie_within(bytes: &[u8], lo: i32, hi: i32) -> bool
    ensures { result ≡ list_all (lies_between lo hi) (words_in_bytes bytes.now) }
{
    let mut rest = bytes;
    while rest.len() >= 4 {
        let word = LittleEndian::read_i32(rest);
        if word < lo || word > hi {
            return false;
        }
        rest = &rest[4..];
    }
    true
}

/// As many table rows as a number says.
#[tactic(auto, unfolding(crate::specs::ReadingRows::table_rows_at))]
pub fn read_table_rows(constants: &[u8], count: u32, from: &mut Cursor<'_>) -> Vec<TableRow>
    ensures { Takes (λ size. table_rows_at size constants.now count) from.old result.items from.new }
{
    read_list(&Constants(constants), 0, count, from)
}
