//! What is known where the body of a loop begins, in its first turn and in each further one.

ghost use Rattle.std.specs.Prelude.{◌≡◌, OnOk, OnErr};
ghost use Rattle.scalar_ranges.specs.Moves.{begin_loop, widen};
ghost use Rattle.scalar_ranges.specs.Scopes.{entries_of, blocks_of, known_of};

use scalar_ranges::Scope;
use std::alloc::AllocError;

/// The body of a replicated `SEQ` begins, which changes the variables with these numbers: each may be any number of its
/// type there. It ends with [`end`](Scope::end). If memory runs out, only these variables have lost their ranges.
pub fn begin_loop(scope: &mut Scope, numbers: &[usize]) -> Result<(), AllocError>
    ensures ok { OnOk result (known_of scope.new ≡ begin_loop numbers.now (known_of scope.old)) }
    ensures entries { OnErr result (entries_of scope.new ≡ widen numbers.now (entries_of scope.old)) }
    ensures blocks { OnErr result (blocks_of scope.new ≡ blocks_of scope.old) }
{
    scope.widen(numbers);
    scope.begin()
}
