//! The limit that a program is above, found after it was refused for one.

use crate::code_limits::excess_of_code;
use code_generator::code_of;
use module_builder::GenFault;
use occam_parser::Program;
use program_walk::{Excess, limit_excess};
use std::alloc::{AllocError, Global};
use usage_checks::check;

/// The first limit that a program is above which was refused for one: what its source shows, or else its code. There is
/// none where only what is written exactly is above it, as rows that no line shows. That it was refused for this limit no
/// clause says.
pub fn exceeded(alloc: Global, program: Program<'_>) -> Result<Option<Excess>, AllocError> {
    let shown = limit_excess(alloc, program.items())?;
    if shown.is_some() {
        return Ok(shown);
    }
    // It broke no rule before, so that only memory may run out.
    let Ok(checked) = check(alloc, program) else {
        return Err(AllocError);
    };
    match code_of(alloc, &checked) {
        Ok(code) => {
            let labels = code.labels;
            excess_of_code(alloc, &code.listing.into_marked(), labels)
        }
        Err(GenFault::Memory) => Err(AllocError),
        Err(GenFault::Limit | GenFault::Invalid) => Ok(None),
    }
}
