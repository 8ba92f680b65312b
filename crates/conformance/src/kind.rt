//! What cases may be about.

use crate::report::Report;
use std::alloc::Global;

/// A kind of cases: what those of a text are about.
pub trait Kind: Copy {
    /// The kind with this name.
    fn named(name: &str) -> Option<Self>;

    /// Tries the cases of a text with this name.
    fn try_text(self, alloc: Global, name: &str, text: &str, report: &mut Report);
}
