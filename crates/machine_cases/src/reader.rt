//! A reader of the bytes of a case.

ghost use Rattle.std.specs.Prelude.{◌≡◌, None, false};
ghost use Rattle.link_runner.specs.Readers.{flag_at};

use crate::calls::CallLog;
use crate::links::given;
use link_runner::{Failed, LinkReader};

/// A reader of bytes that are written in hexadecimal.
#[derive(Drop)]
pub(crate) struct CaseReader<'c> {
    name: &'c str,
    digits: &'c str,
    calls: &'c CallLog,
    has_failed: bool,
}

/// The reader of this link, if the case gives it one.
pub(crate) fn reader<'c>(
    links: &'c str,
    name: &'c str,
    calls: &'c CallLog,
) -> Option<CaseReader<'c>>
    ensures { flag_at (λ r. r.has_failed) result ≡ false }
{
    let digits = given(links, name)?;
    Some(CaseReader {
        name,
        digits,
        calls,
        has_failed: false,
    })
}

impl<'c> LinkReader for CaseReader<'c> {
    ghost left = { λ _. None };

    ghost failed = { λ r. r.has_failed };

    fn read_byte(&mut self) -> Result<Option<u8>, Failed> {
        if self.calls.begin().is_some() {
            self.has_failed = true;
            self.calls.put_read(self.name, "failed");
            return Err(Failed);
        }
        let Some((pair, rest)) = self.digits.split_at_checked(2) else {
            self.calls.put_read(self.name, "end");
            return Ok(None);
        };
        self.digits = rest;
        self.calls.put_read(self.name, pair);
        Ok(u8::from_str_radix(pair, 16).ok())
    }

    fn has_failed(&self) -> bool {
        self.has_failed
    }
}
