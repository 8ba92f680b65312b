//! Lists that blocks had which have ended, for the blocks that begin next.

ghost use Rattle.std.specs.Prelude.{◌≡◌, ◌≤◌, [], IfOk, vec_capacity};

use crate::slots::Change;
use std::alloc::{AllocError, Global};

/// Lists that no block has. There are no more of them than blocks were open at once, since a block that begins takes
/// one of each if there is any.
#[derive(Drop)]
pub(crate) struct Spare<'a> {
    changes: Vec<Vec<Change<'a>>>,
    numbers: Vec<Vec<usize>>,
}

impl<'a> Spare<'a> {
    /// No lists.
    pub(crate) fn new(alloc: Global) -> Spare<'a> {
        Spare {
            changes: Vec::new(alloc),
            numbers: Vec::new(alloc),
        }
    }

    /// No changes, with the capacity for so many.
    pub(crate) fn changes(
        &mut self,
        alloc: Global,
        count: usize,
    ) -> Result<Vec<Change<'a>>, AllocError>
        ensures items { IfOk result (λ list. list.items ≡ []) }
        ensures capacity { IfOk result (λ list. count ≤ vec_capacity list) }
    {
        emptied(self.changes.pop(), alloc, count)
    }

    /// No numbers, with the capacity for so many.
    pub(crate) fn numbers(&mut self, alloc: Global, count: usize) -> Result<Vec<usize>, AllocError>
        ensures items { IfOk result (λ list. list.items ≡ []) }
        ensures capacity { IfOk result (λ list. count ≤ vec_capacity list) }
    {
        emptied(self.numbers.pop(), alloc, count)
    }

    /// No block has this list any more. It is let go if there is no memory to keep it.
    pub(crate) fn keep_changes(&mut self, list: Vec<Change<'a>>) {
        let _ = self.changes.push(list);
    }

    /// The same of numbers.
    pub(crate) fn keep_numbers(&mut self, list: Vec<usize>) {
        let _ = self.numbers.push(list);
    }
}

/// An empty list with the capacity for so many: this one without its items, if it has that capacity.
fn emptied<T: Drop>(kept: Option<Vec<T>>, alloc: Global, count: usize) -> Result<Vec<T>, AllocError>
    ensures items { IfOk result (λ list. list.items ≡ []) }
    ensures capacity { IfOk result (λ list. count ≤ vec_capacity list) }
{
    match kept {
        Some(mut list) if list.capacity() >= count => {
            list.clear();
            Ok(list)
        }
        _ => Vec::with_capacity(alloc, count),
    }
}
