//! From bytes to tables.

mod branches;
mod cursor;
mod ends;
mod facts;
mod fields;
mod file;
mod header;
mod labels;
mod list;
mod par_references;
mod pars;
mod procedures;
mod references;
mod table_rows;
mod taken;

ghost use Rattle.std.specs.Prelude.{◌≡◌, ◌≢◌, ◌⊎◌, IfOk, IfErr, MatchResult, Ok, Err};
ghost use Rattle.module_format.specs.Contents.{Contents, contents_of};
ghost use Rattle.module_format.specs.Contexts.{branch_count};
ghost use Rattle.module_format.specs.Places.{ArePlaces};
ghost use Rattle.module_format.specs.Keeping.{IsFile};
ghost use Rattle.module_format.specs.Reading.{out_of_memory};
ghost use Rattle.module_format.specs.ReadingFile.{read_file};
ghost use Rattle.module_format.specs.declared.tables.Version.{Version};

use crate::fault::FormatFault;
use crate::places::Place;
use crate::reading::file::tables_of;
use crate::tables::Tables;
pub(crate) use branches::{meets_any, read_words};
pub(crate) use cursor::Cursor;
pub(crate) use ends::{
    direction_of, end_kind, read_end_direction, read_end_element, read_end_kind, read_end_number,
};
pub(crate) use facts::{
    LEAST_WORD, end_of, read_entries, read_first_word, read_registers, read_span, read_word_fact,
};
pub use header::max_code;
pub(crate) use labels::read_label_offset;
pub use pars::first_entry;
pub(crate) use procedures::{
    read_frame_end, read_frame_start, read_parameter_kind, read_parameter_word, read_parameters,
    read_procedure_entry,
};
pub use references::rows_references;
use std::alloc::Global;
pub(crate) use table_rows::{read_table_end, read_table_start, words_lie_within};

/// What the bytes say, with the places of the branches, or the first fault in the order of the fields. References are
/// checked once all rows are read.
pub fn read(alloc: Global, bytes: &[u8]) -> Result<(Tables<'_>, Vec<Place>), FormatFault>
    // What is read is what the bytes spell.
    ensures found { IfOk result (λ x. IsFile x.0.version bytes.now (contents_of x.0)) }
    // What the bytes spell is read, unless memory runs out.
    ensures only { (version : Version) (c : Contents) → IsFile version bytes.now c
        → MatchResult result (λ x. (x.0.version ≡ version) × (contents_of x.0 ≡ c)) (λ f. f ≡ out_of_memory) }
    // Bytes that are refused spell nothing.
    ensures refused { IfErr result (λ f. f ≢ out_of_memory → (version : Version) (c : Contents)
        → IsFile version bytes.now c → ⊥) }
    // Which fault it is, and where.
    ensures exact { MatchResult result (λ x. read_file bytes.now ≡ Ok (x.0.version, contents_of x.0))
        (λ f. (f ≡ out_of_memory) ⊎ (read_file bytes.now ≡ Err f)) }
    ensures places { IfOk result (λ x. ArePlaces (contents_of x.0) (branch_count (contents_of x.0).pars) x.1.items) }
{
    let (tables, places) = tables_of(alloc, bytes)?;
    Ok((tables, places))
}
