//! Sets of code offsets, a bit for each offset.

ghost use Rattle.std.specs.Prelude.{◌≡◌, ◌≤◌, ◌/◌, ◌%◌, ◌^◌, ◌==◌, ◌||◌, ℕ, false};
ghost use Rattle.module_format.specs.OffsetSet.{has_offset};

use crate::limits::MAX_LONG_CODE;

/// The word that has an offset's bit.
pub(crate) fn word_of(offset: u32) -> usize
    ensures { result ≡ offset / 64 }
{
    (offset / u64::BITS) as usize
}

/// The word in which an offset's bit is the only one.
pub(crate) fn mask_of(offset: u32) -> u64
    ensures { result ≡ 2 ^ (offset % 64) }
{
    1 << (offset % u64::BITS)
}

/// Whether an offset's bit is set.
pub(crate) fn has_offset(words: &[u64], offset: u32) -> bool
    ensures { result ≡ has_offset words.now offset }
{
    match words.get(word_of(offset)) {
        Some(word) => (word >> (offset % u64::BITS)) & 1 == 1,
        None => false,
    }
}

/// How many words have a bit for each offset of the longest code.
const WORDS: usize = (MAX_LONG_CODE / u64::BITS + 1) as usize;

/// A set of offsets that code can have. It takes 32 KiB and no allocation.
#[derive(Drop)]
pub(crate) struct OffsetSet {
    words: [u64; WORDS],
}

impl OffsetSet {
    pub(crate) fn new() -> OffsetSet
        ensures { (at : ℕ) → has_offset result.words at ≡ false }
    {
        OffsetSet { words: [0; WORDS] }
    }

    pub(crate) fn contains(&self, offset: u32) -> bool
        ensures { result ≡ has_offset self.now.words offset }
    {
        has_offset(&self.words, offset)
    }

    pub(crate) fn add(&mut self, offset: u32)
        requires { offset ≤ MAX_LONG_CODE }
        ensures { (at : ℕ) → has_offset self.new.words at ≡ (has_offset self.old.words at || (offset == at)) }
    {
        self.words[word_of(offset)] |= mask_of(offset);
    }
}
