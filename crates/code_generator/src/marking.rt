//! Which lines code comes from.

ghost use Rattle.std.specs.Prelude.{IfOk};
ghost use Rattle.code_generator.specs.Written.{Spends};

use crate::processes::ProcessWriter;
use std::alloc::AllocError;

impl ProcessWriter<'_> {
    /// The code that comes next is that of a line. The line before is the result.
    #[inline(never)]
    pub(crate) fn begin_line(&mut self, line: u32) -> Result<u32, AllocError>
        ensures { IfOk result (λ _. Spends self.old self.new) }
    {
        self.listing.begin_line(line)
    }
}
