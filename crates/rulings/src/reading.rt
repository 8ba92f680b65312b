//! What a context may read through pointers, and what is known of it.

ghost use Rattle.std.specs.Prelude.{◌≡◌, ◌≤ℤ◌, ◌+ℤ◌, pos, negsuc, true};
ghost use Rattle.states.specs.Spans.{together};
ghost use Rattle.module_format.specs.Contents.{Contents};
ghost use Rattle.states.specs.Views.{state_of, BelongsTo};
ghost use Rattle.rulings.specs.Reach.{word_of_byte, words_touched};
ghost use Rattle.rulings.specs.Pointers.{are_near, ends_in, number_within, any_of, frame_read, byte_read};

use crate::place::Place;
use crate::pointers::{Bounds, Pointed};
use crate::reach::{
    full, is_listed, kept_range, lie_in, lie_in_row, readable_size, word_of_byte, words_touched,
    writable_size,
};
use module_format::{Fact, Region};
use states::{Rule, State, Together};

impl Place<'_, '_> {
    ghost use Rattle.std.specs.Prelude.{◌≡◌, ◌≤ℤ◌, ◌+ℤ◌, ℤ, pos, negsuc, true};
    ghost use Rattle.states.specs.Views.{state_of, BelongsTo};
    ghost use Rattle.rulings.specs.Reach.{may_read_parameter, readable_bytes, may_read_bytes, constant_range};
    ghost use Rattle.rulings.specs.Reach.{region_range, parameter_range, may_write_parameter, writable_bytes};
    ghost use Rattle.rulings.specs.Pointers.{are_near, ends_in, reads_bytes, word_read};
    ghost use Rattle.rulings.specs.Telling.{Admits};
    ghost use Rattle.rulings.specs.Places.{site_of};

    /// Whether a context may read what a parameter of its procedure names: a branch, where its row lists it.
    fn may_read_parameter(&self, context: u32, parameter: u16) -> bool
        ensures { result ≡ may_read_parameter self.now.module.now context parameter }
    {
        match self.module.branch(context) {
            Some((_row, branch)) => {
                is_listed(&branch.written_parameters, parameter)
                    || is_listed(&branch.read_parameters, parameter)
            }
            None => true,
        }
    }

    /// How many bytes a parameter names that a context may read.
    pub fn readable_bytes(&self, context: u32, parameter: u16) -> Option<u32>
        ensures { result ≡ readable_bytes self.now.module.now context parameter }
    {
        let found = self.module.parameters(context).get(usize::from(parameter))?;
        if !self.may_read_parameter(context, parameter) {
            return None;
        }
        readable_size(found.kind)
    }

    /// Whether a context may write what a parameter of its procedure names: a branch, where its row lists it.
    fn may_write_parameter(&self, context: u32, parameter: u16) -> bool
        ensures { result ≡ may_write_parameter self.now.module.now context parameter }
    {
        match self.module.branch(context) {
            Some((_row, branch)) => is_listed(&branch.written_parameters, parameter),
            None => true,
        }
    }

    /// How many bytes a parameter names that a context may write.
    pub fn writable_bytes(&self, context: u32, parameter: u16) -> Option<u32>
        ensures { result ≡ writable_bytes self.now.module.now context parameter }
    {
        let found = self.module.parameters(context).get(usize::from(parameter))?;
        if !self.may_write_parameter(context, parameter) {
            return None;
        }
        writable_size(found.kind)
    }

    /// Whether the state's context may read the bytes of a region from the first up to `end`.
    #[tactic(auto, unfolding(crate::specs::Reach::may_read_bytes))]
    fn may_read_bytes(&self, state: &State, region: Region, first: i32, end: i32) -> bool
        requires belongs { BelongsTo self.now.module.now state.now }
        requires near { negsuc 2147483646 ≤ℤ end }
        ensures { result ≡ may_read_bytes self.now.module.now state.now.context region first end }
    {
        match region {
            Region::Frame => state.reads_words(word_of_byte(first), words_touched(first, end)),
            Region::Constants => {
                let size = self.module.tables().constants.len() as u32;
                lie_in(Some(size), first, end)
            }
            Region::Parameter(number) => {
                lie_in(self.readable_bytes(state.context, number), first, end)
            }
        }
    }

    /// The state's context may read `size` bytes wherever a pointer points.
    #[tactic(auto, unfolding(crate::specs::Pointers::reads_bytes))]
    pub fn reads_bytes(&self, state: &State, pointer: Pointed, size: i32) -> Result<(), Rule>
        requires belongs { BelongsTo self.now.module.now state.now }
        requires near { are_near pointer.lo pointer.hi ≡ true }
        requires small { (pos 0 ≤ℤ size) × (size ≤ℤ pos 65536) }
        ensures { let end = pointer.hi +ℤ size in
            Admits result (reads_bytes (site_of self.now) (state_of state.now) pointer.region pointer.lo end) }
    {
        if !self.may_read_bytes(state, pointer.region, pointer.lo, pointer.hi + size) {
            return Err(Rule::Pointer);
        }
        Ok(())
    }

    /// The range of the constants that have bytes from the first up to `end`: that of the row of a table in which
    /// all of them lie, if there is one.
    #[tactic(auto, unfolding(crate::specs::Reach::constant_range))]
    pub fn constant_range(&self, first: i32, end: i64) -> Bounds
        ensures { ends_in result ≡ constant_range self.now.module.now first end }
    {
        let mut rows = self.module.tables().table_rows.iter();
        match rows.find(|row| lie_in_row(first, end, row)) {
            Some(row) => Bounds {
                lo: row.lo,
                hi: row.hi,
            },
            None => full(),
        }
    }

    /// The range that a parameter keeps of what it names.
    pub(crate) fn parameter_range(&self, context: u32, parameter: u16) -> Bounds
        ensures { ends_in result ≡ parameter_range self.now.module.now context parameter }
    {
        match self.module.parameters(context).get(usize::from(parameter)) {
            Some(found) => kept_range(found.kind),
            None => full(),
        }
    }

    /// The numbers that the words of a region may be which have bytes from the first up to `end`: of the frame any.
    #[tactic(auto, unfolding(crate::specs::Reach::region_range))]
    fn region_range(&self, context: u32, region: Region, first: i32, end: i32) -> Bounds
        ensures { ends_in result ≡ region_range self.now.module.now context region first end }
    {
        match region {
            Region::Frame => full(),
            Region::Constants => self.constant_range(first, i64::from(end)),
            Region::Parameter(number) => self.parameter_range(context, number),
        }
    }

    /// What is read of a word through a pointer.
    #[tactic(auto, unfolding(crate::specs::Pointers::word_read))]
    pub fn word_read(&self, state: &State, pointer: Pointed) -> Fact
        requires { are_near pointer.lo pointer.hi ≡ true }
        ensures { result ≡ word_read self.now.module.now (state_of state.now) pointer.region pointer.lo pointer.hi }
    {
        let Pointed { region, lo, hi, .. } = pointer;
        if region.is_frame() {
            return frame_read(state, word_of_byte(lo), words_touched(lo, hi + 1));
        }
        number_within(self.region_range(state.context, region, lo, hi + 4))
    }
}

/// The words of the frame that have one of `size` bytes, wherever a pointer points, are summed from now on.
pub fn sum_reached(state: &mut State, pointer: Pointed, size: i32)
    requires near { are_near pointer.lo pointer.hi ≡ true }
    requires small { (pos 0 ≤ℤ size) × (size ≤ℤ pos 65536) }
    ensures state { state_of state.new ≡ state_of state.old }
    ensures belongs { (m : Contents) → BelongsTo m state.old → BelongsTo m state.new }
{
    if pointer.region.is_frame() {
        let end = pointer.hi + size;
        state.sum_words(word_of_byte(pointer.lo), words_touched(pointer.lo, end));
    }
}

/// The numbers between two bounds, which both belong to them.
fn number_within(bounds: Bounds) -> Fact
    ensures { result ≡ number_within (ends_in bounds) }
{
    Fact::Number {
        lo: bounds.lo,
        hi: bounds.hi,
    }
}

/// What is known of any of some words that are known together.
fn any_of(all: Together) -> Fact
    ensures { result ≡ any_of all }
{
    if all.are_numbers {
        Fact::Number {
            lo: all.lo,
            hi: all.hi,
        }
    } else {
        Fact::Unknown
    }
}

/// What is read of some words of the frame, from the first on: of one word its plain fact.
fn frame_read(state: &State, first: i32, count: u32) -> Fact
    ensures { result ≡ frame_read (state_of state.now).frame first count }
{
    if count == 1 {
        state.fact_at(first).plain()
    } else {
        any_of(state.together(first, count))
    }
}

/// What is known together of the words of the frame that have a byte whose offset lies between two others.
fn touched_together(state: &State, lo: i32, hi: i32) -> Together
    requires { (negsuc 1073741823 ≤ℤ hi) × (hi ≤ℤ pos 1073741823) }
    ensures { let count = words_touched lo (hi +ℤ pos 1) in
        result ≡ together (state_of state.now).frame (word_of_byte lo) count }
{
    state.together(word_of_byte(lo), words_touched(lo, hi + 1))
}

/// What is read of a byte through a pointer.
#[tactic(auto, unfolding(crate::specs::Pointers::byte_read))]
pub fn byte_read(state: &State, pointer: Pointed) -> Fact
    requires { (negsuc 1073741823 ≤ℤ pointer.hi) × (pointer.hi ≤ℤ pos 1073741823) }
    ensures { result ≡ byte_read (state_of state.now) pointer.region pointer.lo pointer.hi }
{
    if pointer.region.is_frame() {
        let all = touched_together(state, pointer.lo, pointer.hi);
        if !all.are_numbers {
            return Fact::Unknown;
        }
        return Fact::Number { lo: 0, hi: 255 };
    }
    Fact::Number { lo: 0, hi: 255 }
}
