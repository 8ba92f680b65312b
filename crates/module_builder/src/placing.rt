//! What rows have, with offsets in place of labels.

ghost use Rattle.std.specs.Prelude.{◌≡◌, IfOk, map};
ghost use Rattle.module_format.specs.Contents.{branch_of};
ghost use Rattle.module_format.specs.Stack.{mapped};
ghost use Rattle.module_builder.specs.Placing.{label_offset, finish_offset, placed_fact, placed_entry, placed_branch};

use crate::item::Label;
use crate::layouts::Layout;
use module_format::{BranchRow, Entry, Fact, Stack};
use smallvec::SmallVec;
use std::alloc::{AllocError, Global};

/// Where a label is; 0 if it is not placed.
pub(crate) fn label_offset(layout: &Layout, label: Label) -> u32
    ensures { result ≡ label_offset layout.now.places.items label }
{
    layout.place(label).unwrap_or(0)
}

/// Where the module is finished; 0 if nowhere.
pub(crate) fn finish_offset(layout: &Layout, finish: Option<Label>) -> u32
    ensures { result ≡ finish_offset layout.now.places.items finish }
{
    match finish {
        Some(label) => label_offset(layout, label),
        None => 0,
    }
}

fn placed_fact(layout: &Layout, fact: Fact<Label>) -> Fact
    ensures { result ≡ placed_fact layout.now.places.items fact }
{
    match fact {
        Fact::Unknown => Fact::Unknown,
        Fact::Number { lo, hi } => Fact::Number { lo, hi },
        Fact::Pointer {
            region,
            lo,
            hi,
            step,
        } => Fact::Pointer {
            region,
            lo,
            hi,
            step,
        },
        Fact::CodeAddress { offset } => Fact::CodeAddress {
            offset: label_offset(layout, offset),
        },
        Fact::Loop {
            base,
            count,
            weight,
        } => Fact::Loop {
            base,
            count,
            weight,
        },
        Fact::ReturnAddress => Fact::ReturnAddress,
    }
}

pub(crate) fn placed_stack(layout: &Layout, stack: &Stack<Fact<Label>>) -> Stack<Fact>
    ensures { result ≡ mapped (placed_fact layout.now.places.items) stack.now }
{
    Stack {
        a: placed_fact(layout, stack.a),
        b: placed_fact(layout, stack.b),
        c: placed_fact(layout, stack.c),
    }
}

pub(crate) fn placed_entries(
    alloc: Global,
    layout: &Layout,
    entries: &[Entry<Label>],
) -> Result<Vec<Entry>, AllocError>
    ensures { IfOk result (λ v. v.items ≡ map (placed_entry layout.now.places.items) entries.now) }
{
    entries
        .iter()
        .map(|entry| Entry {
            word: entry.word,
            span: entry.span,
            fact: placed_fact(layout, entry.fact),
        })
        .collect(alloc)
}

fn placed_branch(
    alloc: Global,
    layout: &Layout,
    row: &BranchRow<Label>,
) -> Result<BranchRow, AllocError>
    ensures { IfOk result (λ r. branch_of r ≡ placed_branch layout.now.places.items row.now) }
{
    Ok(BranchRow {
        entry: label_offset(layout, row.entry),
        workspace: row.workspace,
        writes: SmallVec::from_slice(alloc, &row.writes)?,
        reads: SmallVec::from_slice(alloc, &row.reads)?,
        written_parameters: SmallVec::from_slice(alloc, &row.written_parameters)?,
        read_parameters: SmallVec::from_slice(alloc, &row.read_parameters)?,
        ends: Vec::from_slice(alloc, &row.ends)?,
    })
}

pub(crate) fn placed_branches(
    alloc: Global,
    layout: &Layout,
    rows: &[BranchRow<Label>],
) -> Result<Vec<BranchRow>, AllocError>
    ensures { IfOk result (λ v. map branch_of v.items ≡ map (placed_branch layout.now.places.items) rows.now) }
{
    let mut placed = Vec::with_capacity(alloc, rows.len())?;
    for row in rows {
        placed.push(placed_branch(alloc, layout, row)?)?;
    }
    Ok(placed)
}
