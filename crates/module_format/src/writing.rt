//! From tables to bytes.
#![tactic(auto, unfolding(crate::proofs::Opening::writing))]

mod branches;
mod facts;
mod kinds;
mod list;
mod rows;
mod writer;

ghost use Rattle.std.specs.Prelude.{◌≡◌, ◌++◌, IfOk, length};
ghost use Rattle.module_format.specs.Contents.{contents_of};
ghost use Rattle.module_format.specs.Keeping.{FitsVersion, Keeps};
ghost use Rattle.module_format.specs.Spelling.{u32_bytes, u64_bytes, magic_of, flag_bytes, header_bytes, rows_bytes};
ghost use Rattle.module_format.specs.Spelling.{file_of};
ghost use Rattle.module_format.specs.Writable.{Writes};

use crate::tables::{Tables, Version};
use crate::writing::list::put_all;
use crate::writing::writer::Writer;
use std::alloc::{AllocError, Global};

/// The magic of a version.
fn put_magic(out: &mut Writer, version: Version)
    ensures { Writes out.old (magic_of version) out.new }
{
    match version {
        Version::One => out.slice(b"TPM1"),
        Version::Two => out.slice(b"TPM2"),
    }
}

/// The numbers of the code, the constants and the data area, and the bounds of a run.
fn put_sizes(out: &mut Writer, tables: &Tables)
    requires { Keeps (contents_of tables.now) }
    ensures { Writes out.old (u32_bytes (length tables.now.code.now) ++ u32_bytes
        (length tables.now.constants.now) ++ u32_bytes tables.now.data_words
        ++ u32_bytes tables.now.base ++ u64_bytes tables.now.budget ++ u32_bytes tables.now.finish) out.new }
{
    out.u32(tables.code.len() as u32);
    out.u32(tables.constants.len() as u32);
    out.u32(tables.data_words);
    out.u32(tables.base);
    out.u64(tables.budget);
    out.u32(tables.finish);
}

/// The numbers of rows that both versions have.
fn put_counts(out: &mut Writer, tables: &Tables)
    requires { Keeps (contents_of tables.now) }
    ensures { Writes out.old (u32_bytes (length (contents_of tables.now).procedures) ++ u32_bytes
        (length (contents_of tables.now).labels)
        ++ u32_bytes (length (contents_of tables.now).pars)) out.new }
{
    out.u32(tables.procedures.len() as u32);
    out.u32(tables.labels.len() as u32);
    out.u32(tables.pars.len() as u32);
}

/// What is before the code in both versions, after the magic.
fn put_header(out: &mut Writer, version: Version, tables: &Tables)
    requires { Keeps (contents_of tables.now) }
    ensures { Writes out.old (header_bytes (contents_of tables.now)) out.new }
{
    put_sizes(out, tables);
    put_all(out, version, &tables.lengths);
    put_counts(out, tables);
}

/// The flag and the number of table rows, which version 1 doesn't have.
fn put_extension(out: &mut Writer, version: Version, tables: &Tables)
    requires { Keeps (contents_of tables.now) }
    ensures { Writes out.old (flag_bytes version tables.now.has_long_operations
        (length tables.now.table_rows.items)) out.new }
{
    match version {
        Version::One => {}
        Version::Two => {
            out.u32(u32::from(tables.has_long_operations));
            out.u32(tables.table_rows.len() as u32);
        }
    }
}

/// The rows, which follow the code and the constants.
fn put_rows(out: &mut Writer, version: Version, tables: &Tables)
    requires { Keeps (contents_of tables.now) }
    ensures { Writes out.old (rows_bytes version (contents_of tables.now)) out.new }
{
    put_all(out, version, &tables.procedures);
    put_all(out, version, &tables.labels);
    put_all(out, version, &tables.pars);
    put_all(out, version, &tables.table_rows);
}

/// The one file of valid tables.
pub fn write(alloc: Global, tables: &Tables) -> Result<Vec<u8>, AllocError>
    requires valid { Keeps (contents_of tables.now) }
    requires fits { FitsVersion tables.now.version (contents_of tables.now) }
    ensures { IfOk result (λ bytes. bytes.items ≡ file_of tables.now.version (contents_of tables.now)) }
{
    write_as(alloc, tables.version, tables)
}

/// The one file of valid tables in a version, whatever their own is.
pub fn write_as(alloc: Global, version: Version, tables: &Tables) -> Result<Vec<u8>, AllocError>
    requires valid { Keeps (contents_of tables.now) }
    requires fits { FitsVersion version (contents_of tables.now) }
    ensures { IfOk result (λ bytes. bytes.items ≡ file_of version (contents_of tables.now)) }
{
    let mut out = Writer::new(alloc);
    put_magic(&mut out, version);
    put_header(&mut out, version, tables);
    put_extension(&mut out, version, tables);
    out.slice(tables.code);
    out.slice(tables.constants);
    put_rows(&mut out, version, tables);
    out.finish()
}
