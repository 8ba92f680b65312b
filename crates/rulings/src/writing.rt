//! What a context may write through pointers, and what is left of the words of the frame.

ghost use Rattle.std.specs.Prelude.{◌≡◌, ◌≤ℤ◌, ℤ, negsuc, true};
ghost use Rattle.module_format.specs.Contents.{Contents};
ghost use Rattle.module_format.specs.Regions.{is_frame};
ghost use Rattle.states.specs.Views.{state_of, BelongsTo, CanWrite, CanWriteSpan};
ghost use Rattle.rulings.specs.Reach.{word_of_byte, words_touched};
ghost use Rattle.rulings.specs.Pointers.{ends_in, is_number_in, is_full, widened_by, stored_byte, leaves_words};

use crate::place::Place;
use crate::pointers::{Bounds, Pointed};
use crate::reach::{full, lie_in, word_of_byte, words_touched};
use module_format::{Fact, Region};
use states::{Leaving, Rule, State};

impl Place<'_, '_> {
    ghost use Rattle.std.specs.Prelude.{◌≡◌, ◌≤ℤ◌, negsuc, true, IfOk};
    ghost use Rattle.module_format.specs.Regions.{is_frame};
    ghost use Rattle.states.specs.Views.{state_of, BelongsTo, CanWriteSpan};
    ghost use Rattle.rulings.specs.Reach.{word_of_byte, words_touched, may_write_bytes};
    ghost use Rattle.rulings.specs.Pointers.{ends_in, writes_bytes, wanted_range, takes_any};
    ghost use Rattle.rulings.specs.Telling.{Admits};
    ghost use Rattle.rulings.specs.Places.{site_of};

    /// Whether the state's context may write the bytes of a region from the first up to `end`.
    #[tactic(auto, unfolding(crate::specs::Reach::may_write_bytes))]
    fn may_write_bytes(&self, state: &State, region: Region, first: i32, end: i32) -> bool
        requires belongs { BelongsTo self.now.module.now state.now }
        requires near { negsuc 2147483646 ≤ℤ end }
        ensures allowed { result ≡ may_write_bytes self.now.module.now state.now.context region first end }
        ensures room { is_frame region ≡ true → result ≡ true
            → CanWriteSpan state.now (word_of_byte first) (words_touched first end) }
    {
        match region {
            Region::Frame => state.writes_words(word_of_byte(first), words_touched(first, end)),
            Region::Constants => false,
            Region::Parameter(number) => {
                lie_in(self.writable_bytes(state.context, number), first, end)
            }
        }
    }

    /// The state's context may write the bytes from the first to which a pointer may lead up to `end`.
    #[tactic(auto, unfolding(crate::specs::Pointers::writes_bytes))]
    pub fn writes_bytes(&self, state: &State, pointer: Pointed, end: i32) -> Result<(), Rule>
        requires belongs { BelongsTo self.now.module.now state.now }
        requires near { negsuc 2147483646 ≤ℤ end }
        ensures test { Admits result
            (writes_bytes (site_of self.now) (state_of state.now) pointer.region pointer.lo end) }
        ensures room { IfOk result (λ _. is_frame pointer.region ≡ true
            → CanWriteSpan state.now (word_of_byte pointer.lo) (words_touched pointer.lo end)) }
    {
        if !self.may_write_bytes(state, pointer.region, pointer.lo, end) {
            return Err(Rule::Pointer);
        }
        Ok(())
    }

    /// The range in which the words of a region are kept.
    pub fn wanted_range(&self, context: u32, region: Region) -> Bounds
        ensures { ends_in result ≡ wanted_range self.now.module.now context region }
    {
        match region {
            Region::Frame | Region::Constants => full(),
            Region::Parameter(number) => self.parameter_range(context, number),
        }
    }

    /// Whether any number may be kept where a pointer leads.
    #[tactic(auto, unfolding(crate::specs::Pointers::takes_any))]
    pub fn takes_any(&self, context: u32, fact: Fact) -> bool
        ensures { result ≡ takes_any self.now.module.now context fact }
    {
        match fact {
            Fact::Pointer { region, .. } => is_full(self.wanted_range(context, region)),
            _ => true,
        }
    }
}

/// Words of the frame are left so where they have a byte from the first to which a pointer may lead up to `end`.
#[tactic(auto, unfolding(crate::specs::Pointers::leaves_words))]
pub fn leave_words(state: &mut State, pointer: Pointed, end: i32, leaving: Leaving)
    requires near { negsuc 2147483646 ≤ℤ end }
    requires room { is_frame pointer.region ≡ true
        → CanWriteSpan state.old (word_of_byte pointer.lo) (words_touched pointer.lo end) }
    ensures state { state_of state.new ≡ leaves_words pointer end leaving (state_of state.old) }
    ensures belongs { (m : Contents) → BelongsTo m state.old → BelongsTo m state.new }
    ensures kept { (k : ℤ) → CanWrite state.old k → CanWrite state.new k }
{
    if pointer.region.is_frame() {
        let count = words_touched(pointer.lo, end);
        state.change_span(word_of_byte(pointer.lo), count, leaving);
    }
}

/// Whether a fact is a number within bounds.
pub fn is_number_in(bounds: Bounds, fact: Fact) -> bool
    ensures { result ≡ is_number_in (ends_in bounds) fact }
{
    match fact {
        Fact::Number { lo, hi } => bounds.lo <= lo && hi <= bounds.hi,
        _ => false,
    }
}

/// Whether any word lies within bounds.
pub fn is_full(bounds: Bounds) -> bool
    ensures { result ≡ is_full (ends_in bounds) }
{
    bounds.lo == i32::MIN && bounds.hi == i32::MAX
}

/// What is left of a word that may have been replaced by one of which this is known.
pub fn widened_by(fact: Fact) -> Leaving
    ensures { result ≡ widened_by fact }
{
    match fact {
        Fact::Number { lo, hi } => Leaving::Widen { lo, hi },
        _ => Leaving::Become(Fact::Unknown),
    }
}

/// The same where a byte is stored.
pub fn stored_byte() -> Leaving
    ensures { result ≡ stored_byte }
{
    Leaving::Widen {
        lo: i32::MIN,
        hi: i32::MAX,
    }
}
