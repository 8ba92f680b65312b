//! A writer that takes as many bytes a call as a case says.

ghost use Rattle.std.specs.Prelude.{◌≡◌, ◌≤◌, None, false, IfSome};
ghost use Rattle.link_runner.specs.Readers.{flag_at};

use crate::calls::{CallFailure, CallLog, put_bytes};
use crate::links::given;
use conformance::Answer;
use link_runner::{Failed, LinkWriter};
use std::alloc::Global;

/// A writer that takes at most `most` bytes a call, and keeps them in hexadecimal.
#[derive(Drop)]
pub(crate) struct CaseWriter<'c> {
    name: &'c str,
    most: usize,
    taken: Answer,
    calls: &'c CallLog,
    has_failed: bool,
}

/// The writer of this link, if the case gives it one.
pub(crate) fn writer<'c>(
    alloc: Global,
    links: &'c str,
    name: &'c str,
    calls: &'c CallLog,
) -> Option<CaseWriter<'c>>
    ensures { flag_at (λ w. w.has_failed) result ≡ false }
{
    let most = given(links, name)?;
    Some(CaseWriter {
        name,
        most: most.parse::<usize>().unwrap_or(usize::MAX),
        taken: Answer::new(alloc),
        calls,
        has_failed: false,
    })
}

impl<'c> CaseWriter<'c> {
    /// Whether it took a byte, for which there may have been no room.
    pub(crate) fn has_taken(&self) -> bool {
        !self.taken.as_str().is_empty() || self.taken.is_out_of_memory()
    }

    /// Appends the bytes that it took.
    pub(crate) fn put_taken(&self, out: &mut Answer) {
        out.put(self.taken.as_str());
        if self.taken.is_out_of_memory() {
            out.fail();
        }
    }
}

/// How many of `length` bytes a call takes, if it does not fail with an error.
fn accepted(failure: Option<CallFailure>, length: usize, most: usize) -> Option<usize>
    ensures { IfSome result (λ count. count ≤ length) }
{
    match failure {
        None => Some(length.min(most)),
        Some(CallFailure::TakesNone) => Some(0),
        Some(CallFailure::Error) => None,
    }
}

impl<'c> LinkWriter for CaseWriter<'c> {
    ghost written = { λ _. None };

    ghost failed = { λ w. w.has_failed };

    fn write_some(&mut self, bytes: &[u8]) -> Result<usize, Failed> {
        let Some(count) = accepted(self.calls.begin(), bytes.len(), self.most) else {
            self.has_failed = true;
            self.calls.put_written(self.name, bytes, None);
            return Err(Failed);
        };
        if count == 0 && !bytes.is_empty() {
            self.has_failed = true;
        }
        self.calls.put_written(self.name, bytes, Some(count));
        put_bytes(&mut self.taken, &bytes[..count]);
        Ok(count)
    }

    fn has_failed(&self) -> bool {
        self.has_failed
    }
}
