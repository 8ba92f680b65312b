//! The entries of branches that were read.

ghost use Rattle.std.specs.Prelude.{◌≡◌, ◌<◌, ◌/◌, ◌++◌, ◌==◌, [], ◌∷◌, IfOk, length};
ghost use Rattle.std.specs.List.{list_any};
ghost use Rattle.module_format.specs.OffsetSet.{IsSetOf};

use crate::offset_set::{has_offset, mask_of, word_of};
use std::alloc::{AllocError, Global};

/// Code offsets in the order in which they were added, and a bit for each of them.
#[derive(Drop)]
pub(crate) struct Taken {
    entries: Vec<u32>,
    words: Vec<u64>,
    ghost has_entries: { IsSetOf words.items entries.items },
}

impl Taken {
    pub(crate) fn new(alloc: Global) -> Taken
        ensures { result.entries.items ≡ [] }
    {
        Taken {
            entries: Vec::new(alloc),
            words: Vec::new(alloc),
        }
    }

    /// How many offsets there are.
    pub(crate) fn len(&self) -> usize
        ensures { result ≡ length self.now.entries.items }
    {
        self.entries.len()
    }

    pub(crate) fn contains(&self, offset: u32) -> bool
        ensures { result ≡ list_any (λ other. other == offset) self.now.entries.items }
    {
        has_offset(&self.words, offset)
    }

    /// Makes a word for an offset's bit.
    fn reserve(&mut self, offset: u32) -> Result<(), AllocError>
        ensures { IfOk result
            (λ _. (offset / 64 < length self.new.words.items) × (self.new.entries.items ≡ self.old.entries.items)) }
    {
        let word = word_of(offset);
        if word >= self.words.len() {
            self.words.resize(word + 1, 0)?;
        }
        Ok(())
    }

    pub(crate) fn add(&mut self, offset: u32) -> Result<(), AllocError>
        ensures { IfOk result (λ _. self.new.entries.items ≡ self.old.entries.items ++ offset ∷ []) }
    {
        self.reserve(offset)?;
        self.entries.push(offset)?;
        self.words[word_of(offset)] |= mask_of(offset);
        Ok(())
    }
}
