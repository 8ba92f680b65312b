//! The whole file.
#![tactic(auto, unfolding(crate::proofs::Opening::reading_file))]

ghost use Rattle.std.specs.Prelude.{◌≡◌, None, IfOk};
ghost use Rattle.module_format.specs.Contents.{contents_of};
ghost use Rattle.module_format.specs.Contexts.{branch_count};
ghost use Rattle.module_format.specs.Places.{ArePlaces};
ghost use Rattle.module_format.specs.Reading.{Gives};
ghost use Rattle.module_format.specs.ReadingFile.{IsReady, tables_at, ended_at, read_file};
ghost use Rattle.module_format.specs.Taking.{Takes, Concludes};

use crate::contexts::Contexts;
use crate::fault::{FormatFault, FormatFaultKind, ReadError};
use crate::listed::Code;
use crate::places::{Place, places_of};
use crate::reading::cursor::Cursor;
use crate::reading::header::{Header, read_header};
use crate::reading::labels::read_label_rows;
use crate::reading::pars::read_par_rows;
use crate::reading::procedures::read_procedure_rows;
use crate::reading::references::rows_references;
use crate::reading::table_rows::read_table_rows;
use crate::tables::{Tables, first_branch};
use std::alloc::Global;

/// The code, the constants and the rows, with the offset of the label rows.
fn read_tables<'a>(header: &Header, from: &mut Cursor<'a>) -> (Tables<'a>, usize)
    ensures takes { Takes (λ size. tables_at size header.now) from.old (contents_of result.0, result.1) from.new }
    ensures version { result.0.version ≡ header.now.version }
{
    let Header {
        version,
        sizes,
        lengths,
        counts,
    } = *header;
    let code = from.bytes(sizes.code_len);
    let code_len = sizes.code_len as usize;
    let constants = from.bytes(sizes.const_len);
    let place = Code {
        version,
        len: code_len,
    };
    let procedures = read_procedure_rows(&place, counts.procedures, from);
    let rows = from.place();
    let labels = read_label_rows(code_len, &procedures, counts.labels, from);
    let own = first_branch(&procedures);
    let pars = read_par_rows(own, code_len, counts.pars, from);
    let table_rows = read_table_rows(constants, counts.table_rows, from);
    let tables = Tables {
        version,
        code,
        constants,
        data_words: sizes.data_words,
        base: sizes.base,
        budget: sizes.budget,
        finish: sizes.finish,
        lengths,
        has_long_operations: counts.has_long_operations,
        procedures,
        labels,
        pars,
        table_rows,
    };
    (tables, rows)
}

/// The places of the branches of tables that a cursor read, whose label rows begin at offset `rows`, if it
/// did not fail, what the rows name is there and nothing is left.
fn conclude(
    alloc: Global,
    tables: &Tables,
    rows: usize,
    from: &Cursor<'_>,
) -> Result<Vec<Place>, ReadError>
    requires { from.now.failure ≡ None → IsReady rows (contents_of tables.now) }
    ensures gives { Concludes (λ _. contents_of tables.now) from.now.failure result
        (ended_at from.now.size rows (contents_of tables.now) from.now.rest.now) }
    ensures places { IfOk result (λ places.
        ArePlaces (contents_of tables.now) (branch_count (contents_of tables.now).pars) places.items) }
{
    from.outcome()?;
    let places = places_of(alloc, tables)?;
    rows_references(&Contexts::of_places(tables, &places), rows)?;
    if !from.is_at_end() {
        let left_over = FormatFault::new(FormatFaultKind::LeftOver, from.place());
        return Err(ReadError::Fault(left_over));
    }
    Ok(places)
}

/// The tables that the bytes spell, all of the bytes, with the places of the branches.
pub fn tables_of(alloc: Global, bytes: &[u8]) -> Result<(Tables<'_>, Vec<Place>), ReadError>
    ensures gives { Gives (λ x. (x.0.version, contents_of x.0)) result (read_file bytes.now) }
    ensures places { IfOk result (λ x. ArePlaces (contents_of x.0) (branch_count (contents_of x.0).pars) x.1.items) }
{
    let mut from = Cursor::new(alloc, bytes);
    let header = read_header(&mut from);
    let (tables, rows) = read_tables(&header, &mut from);
    let places = conclude(alloc, &tables, rows, &from)?;
    Ok((tables, places))
}
