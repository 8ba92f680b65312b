//! Ends, and the front of branches.
#![tactic(auto, unfolding(crate::specs::Spelling::counts_bytes, crate::specs::Spelling::branch_head))]

ghost use Rattle.std.specs.Prelude.{◌++◌, ◌∷◌};
ghost use Rattle.module_format.specs.Contents.{branch_of};
ghost use Rattle.module_format.specs.Spelling.{u32_bytes, i32_bytes, counts_bytes, branch_head};
ghost use Rattle.module_format.specs.Writable.{Writes, BranchIsWritable};

use crate::rows::{BranchCounts, BranchRow};
use crate::writing::writer::Writer;

/// A kind, a number and an element.
pub(crate) fn put_end_fields(out: &mut Writer, kind: u8, number: i32, element: u32)
    ensures { Writes out.old (kind ∷ (i32_bytes number ++ u32_bytes element)) out.new }
{
    out.u8(kind);
    out.i32(number);
    out.u32(element);
}

/// How many intervals, parameters and ends a branch has.
fn put_counts(out: &mut Writer, counts: &BranchCounts)
    ensures { Writes out.old (counts_bytes counts.now) out.new }
{
    out.u16(counts.writes);
    out.u16(counts.reads);
    out.u16(counts.written_parameters);
    out.u16(counts.read_parameters);
    out.u16(counts.ends);
}

/// A branch's entry, workspace and numbers of items.
pub(crate) fn put_branch_head(out: &mut Writer, row: &BranchRow)
    requires { BranchIsWritable (branch_of row.now) }
    ensures { Writes out.old (branch_head (branch_of row.now)) out.new }
{
    out.u32(row.entry);
    out.i32(row.workspace);
    put_counts(out, &row.counts());
}
