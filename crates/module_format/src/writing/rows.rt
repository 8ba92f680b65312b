//! Rows and their items, each field after the other.
#![tactic(auto, unfolding(crate::proofs::Opening::writing_rows))]

ghost use Rattle.std.specs.Prelude.{◌^◌, ◌<◌, ⊤, length};
ghost use Rattle.module_format.specs.Contents.{procedure_of, label_of, branch_of, par_of};
ghost use Rattle.module_format.specs.Meaning.{without_lists, viewed};
ghost use Rattle.module_format.specs.Spelling.{u16_bytes, u32_bytes, entry_bytes, label_bytes, parameter_bytes};
ghost use Rattle.module_format.specs.Spelling.{procedure_bytes, channel_bytes, interval_bytes, end_bytes};
ghost use Rattle.module_format.specs.Spelling.{branch_bytes, par_bytes, table_row_bytes};
ghost use Rattle.module_format.specs.Writable.{BranchIsWritable, ParIsWritable};

use crate::rows::{
    BranchRow, ChannelRow, EndRow, Entry, Interval, LabelRow, ParRow, Parameter, ProcedureRow,
    TableRow,
};
use crate::tables::Version;
use crate::writing::branches::{put_branch_head, put_end_fields};
use crate::writing::facts::put_fact;
use crate::writing::kinds::put_kind;
use crate::writing::list::{Put, put_all};
use crate::writing::writer::Writer;

impl Put for u16 {
    ghost meaning = { without_lists u16_bytes };

    fn put(&self, _version: Version, out: &mut Writer) {
        out.u16(*self);
    }
}

impl Put for u32 {
    ghost meaning = { without_lists u32_bytes };

    fn put(&self, _version: Version, out: &mut Writer) {
        out.u32(*self);
    }
}

impl Put for Entry {
    ghost meaning = { without_lists entry_bytes };

    fn put(&self, _version: Version, out: &mut Writer) {
        out.i32(self.word);
        out.u32(self.span);
        put_fact(out, &self.fact);
    }
}

impl Put for LabelRow {
    ghost meaning = { viewed label_of (λ _. label_bytes) (λ row. length row.entries < 2 ^ 16) };

    fn put(&self, version: Version, out: &mut Writer) {
        out.u32(self.offset);
        out.u16(self.context);
        out.i32(self.depth);
        out.u64(self.number);
        put_fact(out, &self.stack.a);
        put_fact(out, &self.stack.b);
        put_fact(out, &self.stack.c);
        out.u16(self.entries.len() as u16);
        put_all(out, version, &self.entries);
    }
}

impl Put for Parameter {
    ghost meaning = { viewed (λ p. p) parameter_bytes (λ _. ⊤) };

    fn put(&self, version: Version, out: &mut Writer) {
        out.u16(self.word);
        put_kind(out, version, &self.kind);
    }
}

impl Put for ProcedureRow {
    ghost meaning = { viewed procedure_of procedure_bytes (λ row. length row.parameters < 2 ^ 16) };

    fn put(&self, version: Version, out: &mut Writer) {
        out.u32(self.entry);
        out.i32(self.lo);
        out.i32(self.hi);
        out.u64(self.number);
        out.u16(self.parameters.len() as u16);
        put_all(out, version, &self.parameters);
    }
}

impl Put for TableRow {
    ghost meaning = { without_lists table_row_bytes };

    fn put(&self, _version: Version, out: &mut Writer) {
        out.u32(self.start);
        out.u32(self.end);
        out.i32(self.lo);
        out.i32(self.hi);
    }
}

impl Put for ChannelRow {
    ghost meaning = { without_lists channel_bytes };

    fn put(&self, _version: Version, out: &mut Writer) {
        out.i32(self.word);
        out.u32(self.length);
    }
}

impl Put for Interval {
    ghost meaning = { without_lists interval_bytes };

    fn put(&self, _version: Version, out: &mut Writer) {
        out.i32(self.lo);
        out.i32(self.hi);
    }
}

impl Put for EndRow {
    ghost meaning = { without_lists end_bytes };

    fn put(&self, _version: Version, out: &mut Writer) {
        let key = self.key();
        put_end_fields(out, key.kind, key.number, key.element);
        out.u8(key.direction);
    }
}

impl Put for BranchRow {
    ghost meaning = { viewed branch_of (λ _. branch_bytes) BranchIsWritable };

    fn put(&self, version: Version, out: &mut Writer) {
        put_branch_head(out, self);
        put_all(out, version, &self.writes);
        put_all(out, version, &self.reads);
        put_all(out, version, &self.written_parameters);
        put_all(out, version, &self.read_parameters);
        put_all(out, version, &self.ends);
    }
}

impl Put for ParRow {
    ghost meaning = { viewed par_of (λ _. par_bytes) ParIsWritable };

    fn put(&self, version: Version, out: &mut Writer) {
        out.u16(self.context);
        out.i32(self.depth);
        out.i32(self.block);
        out.u32(self.successor);
        out.u16(self.channels.len() as u16);
        out.u16(self.branches.len() as u16);
        put_all(out, version, &self.channels);
        put_all(out, version, &self.branches);
    }
}
