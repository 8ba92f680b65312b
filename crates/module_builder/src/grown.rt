//! References that have grown, and the places that follow.

ghost use Rattle.std.specs.Prelude.{◌≡◌};
ghost use Rattle.module_builder.specs.Plans.{planned, HasSizes};

use crate::fault::GenFault;
use crate::instructions::Instructions;
use crate::offsets::{Offsets, bytes_of};
use crate::plan::{Plan, Reference};
use crate::spacing::Spacing;
use module_format::MAX_LONG_CODE;
use std::alloc::{AllocError, Global};

/// A length for each reference of a draft, and where all items begin by them.
#[derive(Drop)]
pub(crate) struct Grown<'p> {
    plan: &'p Plan,
    sizes: Spacing,
    ghost fit: { HasSizes plan.now sizes.lengths.items },
}

impl<'p> Grown<'p> {
    ghost use Rattle.std.specs.Prelude.{◌≡◌, ◌≢◌, ◌<◌, sum, length, IfOk, Err};
    ghost use Rattle.module_builder.specs.Plans.{planned};

    /// The places that follow where references have these lengths, if the code isn't too long.
    pub(crate) fn of(alloc: Global, plan: &'p Plan, sizes: Vec<u8>) -> Result<Grown<'p>, GenFault>
        requires { length sizes.items ≡ length plan.now.references.items }
        ensures lengths { IfOk result (λ grown. planned grown.plan.now grown.sizes.lengths.items
            ≡ planned plan.now sizes.items) }
        ensures limit { result ≡ Err GenFault.Limit → MAX_LONG_CODE < sum (planned plan.now sizes.items) }
        ensures faults { result ≢ Err GenFault.Invalid }
    {
        let sizes = Spacing::of(alloc, sizes)?;
        if plan.fixed.end() + sizes.end() > MAX_LONG_CODE {
            return Err(GenFault::Limit);
        }
        Ok(Grown { plan, sizes })
    }
}

impl Offsets for Grown<'_> {
    ghost lengths = { λ grown. planned grown.plan.now grown.sizes.lengths.items };

    fn offset(&self, number: usize) -> u32 {
        let before = self.plan.counts.offset(number) as usize;
        self.plan.fixed.offset(number) + self.sizes.offset(before)
    }

    fn end(&self) -> u32 {
        self.plan.fixed.end() + self.sizes.end()
    }
}
