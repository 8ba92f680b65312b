//! Labels, which are counted one after another.

ghost use Rattle.std.specs.Prelude.{◌≡◌, ◌+◌, IfOk};

use std::alloc::AllocError;

/// The label after another one. The error is that memory runs out if it has no number, since each label is in memory.
pub fn label_after(label: usize) -> Result<usize, AllocError>
    ensures { IfOk result (λ n. n ≡ label + 1) }
{
    label.checked_add(1).ok_or(AllocError)
}
