//! What cases are about.

use crate::answer::Answer;
use crate::outcome::Outcome;
use crate::statements::Statement;
use std::alloc::Global;

/// What the cases of a text are about, as the statements so far have it.
pub trait Subject: Drop {
    /// What they are about before the first statement.
    fn begin(alloc: Global) -> Self;

    /// Takes a statement. If it asks something, the answer is appended to `out`, and the outcome is that of comparing
    /// the answer with the expected one.
    fn perform(&mut self, statement: Statement, out: &mut Answer) -> Outcome;
}
