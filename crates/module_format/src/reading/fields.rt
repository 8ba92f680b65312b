//! Single fields with a rule of their own.
#![tactic(auto, unfolding(crate::proofs::Opening::reading_fields))]

ghost use Rattle.module_format.specs.Reading.{limited_at, positive_at, at_most_at, in_code_at, interval_at};
ghost use Rattle.module_format.specs.Taking.{Takes};

use crate::fault::FormatFaultKind;
use crate::reading::cursor::Cursor;

impl Cursor<'_> {
    /// A u16 up to a limit.
    pub(crate) fn limited_u16(&mut self, limit: u16) -> u16
        ensures { Takes (λ size. limited_at size 2 limit) self.old result self.new }
    {
        let at = self.place();
        let value = self.u16();
        self.check(at, value <= limit, FormatFaultKind::Limit);
        value
    }

    /// A u32 up to a limit.
    pub(crate) fn limited_u32(&mut self, limit: u32) -> u32
        ensures { Takes (λ size. limited_at size 4 limit) self.old result self.new }
    {
        let at = self.place();
        let value = self.u32();
        self.check(at, value <= limit, FormatFaultKind::Limit);
        value
    }

    /// A u64 up to a limit.
    pub(crate) fn limited_u64(&mut self, limit: u64) -> u64
        ensures { Takes (λ size. limited_at size 8 limit) self.old result self.new }
    {
        let at = self.place();
        let value = self.u64();
        self.check(at, value <= limit, FormatFaultKind::Limit);
        value
    }

    /// A u32 from 1 to a limit.
    pub(crate) fn positive(&mut self, limit: u32) -> u32
        ensures { Takes (λ size. positive_at size limit) self.old result self.new }
    {
        let at = self.place();
        let value = self.limited_u32(limit);
        self.check(at, value != 0, FormatFaultKind::Range);
        value
    }

    /// A u32 of which no value above `most` is allowed.
    pub(crate) fn at_most(&mut self, most: usize) -> u32
        ensures { Takes (λ size. at_most_at size most) self.old result self.new }
    {
        let at = self.place();
        let value = self.u32();
        self.check(at, value as usize <= most, FormatFaultKind::Range);
        value
    }

    /// An offset in the code that isn't its first.
    pub(crate) fn in_code(&mut self, code_len: usize) -> u32
        ensures { Takes (λ size. in_code_at size code_len) self.old result self.new }
    {
        let at = self.place();
        let offset = self.u32();
        let is_inside = offset != 0 && (offset as usize) < code_len;
        self.check(at, is_inside, FormatFaultKind::Range);
        offset
    }

    /// The bounds of an interval, the first not above the second.
    pub(crate) fn interval(&mut self) -> (i32, i32)
        ensures { Takes interval_at self.old result self.new }
    {
        let lo = self.i32();
        let at = self.place();
        let hi = self.i32();
        self.check(at, lo <= hi, FormatFaultKind::Range);
        (lo, hi)
    }
}
