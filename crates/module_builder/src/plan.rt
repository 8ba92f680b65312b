//! The items of a draft that can grow, and what the others take.

ghost use Rattle.std.specs.Prelude.{◌≡◌, IfOk, length, map, sum};
ghost use Rattle.module_builder.specs.References.{fixed_len, reference_count, references_from};

use crate::fault::GenFault;
use crate::instructions::Instructions;
use crate::item::{Item, Operand};
use crate::sizes::spelling_len;
use crate::spacing::Spacing;
use std::alloc::{AllocError, Global};

/// An item whose bytes depend on places, and the number of the one after it.
#[derive(Clone, Copy)]
pub(crate) struct Reference {
    pub(crate) next: usize,
    pub(crate) item: Item,
}

/// The references of a draft, and the bytes of its other items.
#[derive(Drop)]
pub(crate) struct Plan {
    /// By item: the bytes that it takes wherever it is, 0 for a reference.
    pub(crate) fixed: Spacing,
    /// By item: 1 for a reference, else 0.
    pub(crate) counts: Spacing,
    pub(crate) references: Vec<Reference>,
    ghost same: { length fixed.lengths.items ≡ length counts.lengths.items },
    ghost all: { length references.items ≡ sum counts.lengths.items },
}

fn fixed_len(item: Item) -> u8
    ensures { result ≡ fixed_len item }
{
    match item {
        Item::Instruction {
            fun: _,
            operand: Operand::Number(number),
        } => spelling_len(number),
        _ => 0,
    }
}

fn reference_count(item: Item) -> u8
    ensures { result ≡ reference_count item }
{
    match item {
        Item::Instruction {
            fun: _,
            operand: Operand::Number(_),
        } => 0,
        _ => 1,
    }
}

fn fixed_lengths(alloc: Global, items: &[Item]) -> Result<Vec<u8>, AllocError>
    ensures { IfOk result (λ v. v.items ≡ map fixed_len items.now) }
{
    items.iter().map(|item| fixed_len(*item)).collect(alloc)
}

fn reference_counts(alloc: Global, items: &[Item]) -> Result<Vec<u8>, AllocError>
    ensures { IfOk result (λ v. v.items ≡ map reference_count items.now) }
{
    items
        .iter()
        .map(|item| reference_count(*item))
        .collect(alloc)
}

fn references(alloc: Global, items: &[Item]) -> Result<Vec<Reference>, AllocError>
    ensures { IfOk result (λ v. v.items ≡ references_from 0 items.now) }
{
    let mut references = Vec::new(alloc);
    for (number, item) in items.iter().enumerate() {
        if reference_count(*item) > 0 {
            references.push(Reference {
                next: number + 1,
                item: *item,
            })?;
        }
    }
    Ok(references)
}

impl Plan {
    ghost use Rattle.std.specs.Prelude.{◌≡◌, ◌≢◌, ℕ, List, IfOk, Err};
    ghost use Rattle.module_builder.specs.Layouts.{Fits};
    ghost use Rattle.module_builder.specs.Plans.{IsPlan};

    /// The plan of a draft's code.
    pub(crate) fn of(alloc: Global, code: &Instructions) -> Result<Plan, GenFault>
        ensures plan { IfOk result (λ plan. IsPlan code.now plan) }
        ensures limit { result ≡ Err GenFault.Limit → (lengths : List ℕ) → ¬ Fits code.now lengths }
        ensures faults { result ≢ Err GenFault.Invalid }
    {
        let fixed = fixed_lengths(alloc, code.items())?;
        let counts = reference_counts(alloc, code.items())?;
        let references = references(alloc, code.items())?;
        Ok(Plan {
            fixed: Spacing::of(alloc, fixed)?,
            counts: Spacing::of(alloc, counts)?,
            references,
        })
    }
}
