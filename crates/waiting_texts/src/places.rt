//! The processes of a run, in the order of their workspaces.

ghost use Rattle.std.specs.Prelude.{◌≡◌, IfOk, length};
ghost use Rattle.std.specs.List.Sorted.{IsPermutation, IsSortedByKey};
ghost use Rattle.std.specs.Ordering.{nat_cmp};
ghost use Rattle.waiting_texts.specs.declared.places.Place.{Place};
ghost use Rattle.waiting_texts.specs.Lines.{AreInOrder, offset_of, places_below, size_before};

use machine::Checked;
use machine_state::{Condition, Task};
use std::alloc::{AllocError, Global};

/// A process by its number, with its workspace.
#[derive(Clone, Copy)]
pub(crate) struct Place {
    pub(crate) workspace: u32,
    pub(crate) process: u64,
}

/// All processes, by their numbers.
fn places(alloc: Global, checked: &Checked<'_>) -> Result<Vec<Place>, AllocError>
    ensures { let tasks = checked.now.world.tasks in
        IfOk result (λ places. places.items ≡ places_below tasks (length tasks)) }
{
    let mut places = Vec::new(alloc);
    for process in 0..checked.count() {
        if let Some(task) = checked.task(process) {
            places.push(Place {
                workspace: task.registers.workspace,
                process,
            })?;
        }
    }
    Ok(places)
}

/// Sorts processes by their workspaces.
fn sort(places: &mut Vec<Place>)
    ensures all { IsPermutation places.old.items places.new.items }
    ensures sorted { IsSortedByKey (λ (place : Place). place.workspace) nat_cmp places.new.items }
{
    places.sort_unstable_by_key(|place| place.workspace);
}

/// All processes, in the order of their workspaces.
pub(crate) fn places_in_order(
    alloc: Global,
    checked: &Checked<'_>,
) -> Result<Vec<Place>, AllocError>
    ensures { IfOk result (λ places. AreInOrder checked.now.world places.items) }
{
    let mut places = places(alloc, checked)?;
    sort(&mut places);
    Ok(places)
}

/// How many bytes the instruction has after which a process is in this condition.
fn size_before(condition: Condition) -> u32
    ensures { result ≡ size_before condition }
{
    match condition {
        Condition::Ready => 0,
        Condition::Alternating | Condition::Stopped => 2,
        Condition::Sending(_)
        | Condition::Receiving(_)
        | Condition::OnLink { .. }
        | Condition::Ended => 1,
    }
}

/// Where the instruction begins that the process is at, or by which it came to wait.
pub(crate) fn offset_of(task: &Task) -> u32
    ensures { result ≡ offset_of task.now }
{
    task.registers
        .began
        .saturating_sub(size_before(task.condition))
}
