//! Which branch begins at a code offset.

ghost use Rattle.std.specs.Prelude.{◌≡◌, ◌<◌, ◌==◌, ◌&&◌, ℕ, if◌then◌else◌, slice_index, IfOk, length};
ghost use Rattle.module_format.specs.Contents.{contents_of};
ghost use Rattle.module_format.specs.Contexts.{branch_count};
ghost use Rattle.module_format.specs.Keeping.{Keeps};
ghost use Rattle.module_format.specs.Places.{ArePlaces};
ghost use Rattle.certificate.specs.Branches.{AreNumbers};

use module_format::{Place, Tables};
use std::alloc::{AllocError, Global};

/// Allocates a place for an offset.
fn grow(numbers: &mut Vec<u32>, offset: u32) -> Result<(), AllocError>
    ensures room { IfOk result (λ _. offset < length numbers.new.items) }
    ensures same { IfOk result (λ _. (at : ℕ) → slice_index numbers.new.items at ≡ slice_index numbers.old.items at) }
{
    let place = offset as usize;
    if place >= numbers.len() {
        numbers.resize(place + 1, 0)?;
    }
    Ok(())
}

/// Sets the number at an offset, if there is none.
fn note(numbers: &mut Vec<u32>, offset: u32, number: u32) -> Result<(), AllocError>
    ensures { IfOk result (λ _. (at : ℕ) → slice_index numbers.new.items at
        ≡ (if (slice_index numbers.old.items at == 0) && (offset == at) then number
        else slice_index numbers.old.items at)) }
{
    grow(numbers, offset)?;
    let slot = &mut numbers[offset as usize];
    if *slot == 0 {
        *slot = number;
    }
    Ok(())
}

/// At each code offset the context of the branch that begins there, or 0, up to the last branch.
pub(crate) fn numbers_of(
    alloc: Global,
    tables: &Tables,
    places: &[Place],
) -> Result<Vec<u32>, AllocError>
    requires keeps { Keeps (contents_of tables.now) }
    requires places { ArePlaces (contents_of tables.now) (branch_count (contents_of tables.now).pars) places.now }
    ensures { IfOk result (λ numbers. AreNumbers (contents_of tables.now) numbers.items) }
{
    let first = tables.first_branch();
    let mut numbers = Vec::new(alloc);
    for index in 0..places.len() {
        let place = places[index];
        let row = &tables.pars[usize::from(place.par)];
        let branch = &row.branches[usize::from(place.branch)];
        note(&mut numbers, branch.entry, (first + index) as u32)?;
    }
    Ok(numbers)
}

/// The number at an offset, 0 where there is none.
pub(crate) fn number_at(numbers: &[u32], offset: u32) -> u32
    ensures { result ≡ slice_index numbers.now offset }
{
    match numbers.get(offset as usize) {
        Some(number) => *number,
        None => 0,
    }
}
