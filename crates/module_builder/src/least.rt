//! The least layout of a draft.

ghost use Rattle.std.specs.Prelude.{◌≡◌, ◌≢◌, ℕ, List, length, map, IfOk, Err};
ghost use Rattle.module_builder.specs.Layouts.{Fits, IsLeast, places};
ghost use Rattle.module_builder.specs.Drafts.{IsComplete};
ghost use Rattle.module_builder.specs.References.{references_from, reference_bytes};

use crate::draft::Draft;
use crate::fault::GenFault;
use crate::grown::Grown;
use crate::instructions::Instructions;
use crate::layouts::Layout;
use crate::offsets::{Offsets, bytes_of, needed};
use crate::plan::{Plan, Reference};
use std::alloc::{AllocError, Global};

/// Where each label is.
fn places_of<P: Offsets>(
    alloc: Global,
    code: &Instructions,
    offsets: &P,
) -> Result<Vec<Option<u32>>, AllocError>
    requires { length (P.lengths offsets.now) ≡ length code.now.items }
    ensures { IfOk result (λ v. v.items ≡ places code.now (P.lengths offsets.now)) }
{
    let mut places = Vec::with_capacity(alloc, code.labels().len())?;
    for target in code.labels() {
        places.push(target.map(|number| offsets.offset(number)))?;
    }
    Ok(places)
}

/// The bytes that each reference takes by these places.
fn needed_by<P: Offsets>(
    alloc: Global,
    places: &P,
    code: &Instructions,
    references: &[Reference],
) -> Result<Vec<u8>, AllocError>
    requires complete { IsComplete code.now }
    requires count { length (P.lengths places.now) ≡ length code.now.items }
    requires references { references.now ≡ references_from 0 code.now.items }
    ensures { IfOk result (λ v. v.items ≡ map (reference_bytes code.now (P.lengths places.now)) references.now) }
{
    let mut needed = Vec::with_capacity(alloc, references.len())?;
    for reference in references {
        let end = places.offset(reference.next);
        needed.push(bytes_of(places, code, end, reference.item))?;
    }
    Ok(needed)
}

/// The least layout of a draft: of those that fit, the one that is nowhere longer than another.
///
/// From the least lengths that references to places can have, each that is too short grows to the length that its
/// operand has by the lengths so far, until none grows.
///
/// # Errors
///
/// `Limit` if no layout fits that has at most [`MAX_LONG_CODE`](module_format::MAX_LONG_CODE) bytes, `Memory` if
/// memory runs out.
pub fn layout(alloc: Global, draft: &Draft) -> Result<Layout, GenFault>
    requires { IsComplete draft.now.code }
    ensures least { IfOk result (λ l. IsLeast draft.now.code l.lengths.items) }
    ensures places { IfOk result (λ l. l.places.items ≡ places draft.now.code l.lengths.items) }
    ensures limit { result ≡ Err GenFault.Limit → (lengths : List ℕ) → ¬ Fits draft.now.code lengths }
    ensures faults { result ≢ Err GenFault.Invalid }
{
    let code = &draft.code;
    let plan = Plan::of(alloc, code)?;
    let sizes = vec![in alloc; 1; plan.references.len()]?;
    let mut grown = Grown::of(alloc, &plan, sizes)?;
    loop {
        let sizes = needed_by(alloc, &grown, code, &plan.references)?;
        let next = Grown::of(alloc, &plan, sizes)?;
        if next.end() == grown.end() {
            return Ok(Layout {
                lengths: needed(alloc, &grown, code)?,
                places: places_of(alloc, code, &grown)?,
            });
        }
        grown = next;
    }
}
