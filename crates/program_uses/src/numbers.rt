//! Sets of numbers.

ghost use Rattle.std.specs.Prelude.{◌≡◌, ℕ, ◌+◌, ◌*◌, ◌<◌, nat_lt, nat_eq, ◌||◌, false, OnOk, IsTrue, ◌↔◌};
ghost use Rattle.std.specs.Prelude.{if◌then◌else◌};
ghost use Rattle.std.specs.Int.RustNames.{bit_or};
ghost use Rattle.program_uses.specs.Words.{HasBelow};

use std::alloc::{AllocError, Global};
use std::collections::BTreeMap;
use std::mem;

/// How many numbers share a word.
const BITS: usize = 64;

/// Whether the number at a place in a block is below this one.
fn is_below(count: usize, block: usize, place: usize) -> bool
    requires { place < 64 }
    ensures { result ≡ nat_lt (64 * block + place) count }
{
    let last = count / BITS;
    block < last || (block == last && place < count % BITS)
}

/// Whether a word of this block has a number below this one.
fn is_any_below(count: usize, block: usize, word: u64) -> bool
    ensures { IsTrue result ↔ HasBelow count block word }
{
    word != 0 && is_below(count, block, word.trailing_zeros() as usize)
}

/// A set of numbers. Those between two multiples of 64 are a block and share a word, so that numbers that are close to
/// each other cost little. The words are in order, since whoever writes a source could choose numbers that collide in a
/// table that is hashed with a fixed seed.
#[derive(Drop)]
pub(crate) struct Numbers {
    /// The block that was added to last, and its word. What `words` has of this block does not count.
    block: usize,
    word: u64,
    words: BTreeMap<usize, u64>,
}

impl Numbers {
    ghost use Rattle.program_uses.specs.Numbers.{stored, word_at, has_number, Meets};

    /// No numbers.
    pub(crate) fn new(alloc: Global) -> Numbers
        ensures { (n : ℕ) → has_number result n ≡ false }
    {
        Numbers {
            block: 0,
            word: 0,
            words: BTreeMap::new(alloc),
        }
    }

    /// The word of a block.
    fn word(&self, block: usize) -> u64
        ensures { result ≡ word_at self.now block }
    {
        if block == self.block {
            self.word
        } else {
            self.words.get(&block).copied().unwrap_or(0)
        }
    }

    /// The word of the block that was added to last is stored. A block without numbers has none.
    fn store(&mut self) -> Result<(), AllocError>
        ensures words { OnOk result ((q : ℕ) → stored self.new q ≡ word_at self.old q) }
        ensures same { (self.new.block ≡ self.old.block) × (self.new.word ≡ self.old.word) }
    {
        if self.word == 0 {
            self.words.remove(&self.block);
        } else {
            self.words.insert(self.block, self.word)?;
        }
        Ok(())
    }

    /// Another block is the one that is added to.
    fn turn_to(&mut self, block: usize) -> Result<(), AllocError>
        ensures words { OnOk result ((q : ℕ) → word_at self.new q ≡ word_at self.old q) }
        ensures block { OnOk result (self.new.block ≡ block) }
    {
        let word = self.word(block);
        self.store()?;
        self.block = block;
        self.word = word;
        Ok(())
    }

    /// Whether a number is one of these.
    pub(crate) fn contains(&self, number: usize) -> bool
        ensures { result ≡ has_number self.now number }
    {
        (self.word(number / BITS) >> (number % BITS)) & 1 == 1
    }

    /// The numbers of a word more.
    fn add_word(&mut self, block: usize, word: u64) -> Result<(), AllocError>
        ensures { OnOk result ((q : ℕ) → word_at self.new q
            ≡ (if nat_eq block q then bit_or (word_at self.old q) word else word_at self.old q)) }
    {
        if block != self.block {
            self.turn_to(block)?;
        }
        self.word |= word;
        Ok(())
    }

    /// One number more.
    pub(crate) fn add(&mut self, number: usize) -> Result<(), AllocError>
        ensures { OnOk result ((n : ℕ) → has_number self.new n ≡ (has_number self.old n || nat_eq n number)) }
    {
        self.add_word(number / BITS, 1 << (number % BITS))
    }

    /// The numbers of another set more. The smaller of the two joins the larger.
    pub(crate) fn join(&mut self, other: Numbers) -> Result<(), AllocError>
        ensures { OnOk result ((n : ℕ) → has_number self.new n ≡ (has_number self.old n || has_number other n)) }
    {
        let mut other = other;
        if self.words.len() < other.words.len() {
            mem::swap(self, &mut other);
        }
        self.add_all(&other)
    }

    /// Each number of another set.
    fn add_all(&mut self, other: &Numbers) -> Result<(), AllocError>
        ensures { OnOk result ((n : ℕ) → has_number self.new n ≡ (has_number self.old n || has_number other.now n)) }
    {
        if other.word != 0 {
            self.add_word(other.block, other.word)?;
        }
        let mut rest = other.words.iter();
        while let Some((block, word)) = rest.next() {
            if *block != other.block {
                self.add_word(*block, *word)?;
            }
        }
        Ok(())
    }

    /// Whether two sets have a number in common that is below this one.
    pub(crate) fn meets(&self, count: usize, other: &Numbers) -> bool
        ensures { IsTrue result ↔ Meets count self.now other.now }
    {
        if self.words.len() <= other.words.len() {
            self.meets_larger(count, other)
        } else {
            other.meets_larger(count, self)
        }
    }

    /// The same, by the words of the first set.
    fn meets_larger(&self, count: usize, other: &Numbers) -> bool
        ensures { IsTrue result ↔ Meets count self.now other.now }
    {
        if is_any_below(count, self.block, self.word & other.word(self.block)) {
            return true;
        }
        let mut rest = self.words.iter();
        while let Some((block, word)) = rest.next() {
            if *block != self.block && is_any_below(count, *block, *word & other.word(*block)) {
                return true;
            }
        }
        false
    }
}
