//! The rules of instructions that write memory through pointers.

ghost use Rattle.std.specs.Prelude.{◌≡◌, ◌≤ℤ◌, ℤ, pos, true};
ghost use Rattle.module_format.specs.Contents.{Contents};
ghost use Rattle.states.specs.Views.{state_of, BelongsTo};
ghost use Rattle.rulings.specs.Reach.{word_of_byte, words_touched};
ghost use Rattle.rulings.specs.Pointers.{is_number_in, is_full, widened_by, stored_byte, are_near};
ghost use Rattle.local_rules.specs.MemoryRules.{stored_word, may_store_word, may_store_byte, pops_two};
ghost use Rattle.local_rules.specs.MemoryRules.{writes_through, stores_word, stores_byte};
ghost use Rattle.rulings.specs.Telling.{Advances};
ghost use Rattle.rulings.specs.Places.{site_of};

use crate::shifting::words_behind;
use module_format::Fact;
use rulings::combinators::{alone, in_bounds, uses};
use rulings::pointers::{Pointed, pointer_of};
use rulings::reach::full;
use rulings::writing::{is_full, is_number_in, leave_words, stored_byte, widened_by};
use rulings::{Continuation, Place};
use states::{Leaving, Rule, State};

/// Whether B may be stored as a word where A points.
#[tactic(auto, unfolding(crate::specs::MemoryRules::may_store_word))]
fn may_store_word(place: &Place, context: u32, a: Fact, b: Fact) -> bool
    ensures { result ≡ may_store_word place.now.module.now context a b }
{
    match a {
        Fact::Pointer { region, lo, hi, .. } => {
            (region.is_frame() && lo == hi) || is_number_in(place.wanted_range(context, region), b)
        }
        _ => is_number_in(full(), b),
    }
}

/// Whether B may be stored as a byte where A points.
#[tactic(auto, unfolding(crate::specs::MemoryRules::may_store_byte))]
fn may_store_byte(place: &Place, context: u32, a: Fact, b: Fact) -> bool
    ensures { result ≡ may_store_byte place.now.module.now context a b }
{
    match a {
        Fact::Pointer { region, .. } => {
            is_full(place.wanted_range(context, region)) && is_number_in(full(), b)
        }
        _ => is_number_in(full(), b),
    }
}

/// A and B are used up, outside alternations and starts.
fn pops_two(place: &Place, state: &mut State) -> Result<Continuation, Rule>
    ensures ruling { Advances result (state_of state.new) (pops_two (site_of place.now) (state_of state.old)) }
    ensures belongs { (m : Contents) → BelongsTo m state.old → BelongsTo m state.new }
{
    alone(state.mode)?;
    state.pop();
    state.pop();
    place.goes_on(state)
}

/// `size` bytes are written wherever a pointer leads, and A and B are used up.
fn writes_through(
    place: &Place,
    state: &mut State,
    pointer: Pointed,
    size: i32,
    leaving: Leaving,
) -> Result<Continuation, Rule>
    requires belongs { BelongsTo place.now.module.now state.old }
    requires near { are_near pointer.lo pointer.hi ≡ true }
    requires small { (pos 0 ≤ℤ size) × (size ≤ℤ pos 4) }
    ensures ruling { let ruling = writes_through (site_of place.now) pointer size leaving (state_of state.old) in
        Advances result (state_of state.new) ruling }
    ensures belongs { BelongsTo place.now.module.now state.new }
{
    let end = pointer.end(size);
    place.writes_bytes(state, pointer, end)?;
    leave_words(state, pointer, end, leaving);
    pops_two(place, state)
}

/// `stnl`: B becomes the word that is a number of words after A.
pub(crate) fn store_non_local(
    place: &Place,
    state: &mut State,
    words: i32,
) -> Result<Continuation, Rule>
    requires { BelongsTo place.now.module.now state.old }
    ensures ruling { Advances result (state_of state.new)
        (stores_word (site_of place.now) words (state_of state.old)) }
    ensures belongs { BelongsTo place.now.module.now state.new }
{
    let a = uses(state.stack.a)?;
    let b = uses(state.stack.b)?;
    in_bounds(may_store_word(place, state.context, a, b))?;
    let pointer = words_behind(words, pointer_of(a)?)?;
    writes_through(place, state, pointer, 4, stored_word(pointer, b))
}

/// `sb`: the low byte of B becomes the byte at A.
pub(crate) fn store_byte(place: &Place, state: &mut State) -> Result<Continuation, Rule>
    requires { BelongsTo place.now.module.now state.old }
    ensures ruling { Advances result (state_of state.new) (stores_byte (site_of place.now) (state_of state.old)) }
    ensures belongs { BelongsTo place.now.module.now state.new }
{
    let a = uses(state.stack.a)?;
    let b = uses(state.stack.b)?;
    in_bounds(may_store_byte(place, state.context, a, b))?;
    writes_through(place, state, pointer_of(a)?, 1, stored_byte())
}

/// What a pointer leaves of the words to which it may lead, where a word is stored.
fn stored_word(pointer: Pointed, fact: Fact) -> Leaving
    ensures { result ≡ stored_word pointer fact }
{
    if pointer.lo == pointer.hi {
        return Leaving::Become(fact);
    }
    widened_by(fact)
}
