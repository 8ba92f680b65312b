//! Bytes that `move` takes to the region of a parameter.

ghost use Rattle.std.specs.Prelude.{◌≡◌, IfSome, true};
ghost use Rattle.states.specs.Views.{state_of};
ghost use Rattle.rulings.specs.Pointers.{are_near};
ghost use Rattle.sentences.specs.Moves.{place_of, is_parameter, is_in_parameter, is_moved, are_mixed, has_mixed};
ghost use Rattle.sentences.specs.Moves.{brings_mixed, mixed_words};

use found_parts::constant_of;
use machine_state::MOST_MOVED;
use module_format::{Fact, Region};
use rulings::filling::are_numbers;
use rulings::pointers::{Pointed, are_near};
use states::State;

/// The most bytes that are moved at once, as a signed number.
const MOST_BYTES: i32 = MOST_MOVED as i32;

/// Where an exact pointer leads that is near.
fn place_of(fact: Fact) -> Option<Pointed>
    ensures value { result ≡ place_of fact }
    ensures near { IfSome result (λ place. are_near place.lo place.hi ≡ true) }
{
    match fact {
        Fact::Pointer {
            region,
            lo,
            hi,
            step,
        } => {
            if are_near(i64::from(lo), i64::from(hi)) && lo <= hi && hi <= lo {
                return Some(Pointed {
                    region,
                    lo,
                    hi,
                    step,
                });
            }
            None
        }
        _ => None,
    }
}

/// Whether it is the region of a parameter.
fn is_parameter(region: Region) -> bool
    ensures { result ≡ is_parameter region }
{
    matches!(region, Region::Parameter(_))
}

/// Whether it leads into the region of a parameter.
fn is_in_parameter(place: Option<Pointed>) -> bool
    ensures { result ≡ is_in_parameter place }
{
    match place {
        Some(to) => is_parameter(to.region),
        None => false,
    }
}

/// Whether this number of bytes is moved, one at least.
fn is_moved(count: i32) -> bool
    ensures { result ≡ is_moved count }
{
    1 <= count && count <= MOST_BYTES
}

/// Whether one of the bytes from an exact pointer on may be part of no number.
fn are_mixed(state: &State, count: i32, pointer: Fact) -> bool
    ensures { result ≡ are_mixed (state_of state.now) count (place_of pointer) }
{
    match place_of(pointer) {
        Some(from) => is_moved(count) && !are_numbers(state, from, count),
        None => false,
    }
}

/// The same of a number of bytes that is known.
fn has_mixed(state: &State, count: Option<i32>, pointer: Fact) -> bool
    ensures { result ≡ has_mixed (state_of state.now) count (place_of pointer) }
{
    match count {
        Some(count) => are_mixed(state, count, pointer),
        None => false,
    }
}

/// Whether A bytes from C on go into the region of a parameter, and one of them may be part of no number.
pub(crate) fn brings_mixed(state: &State) -> bool
    ensures { result ≡ brings_mixed (state_of state.now) }
{
    let count = constant_of(state.stack.a.fact);
    is_in_parameter(place_of(state.stack.b.fact)) && has_mixed(state, count, state.stack.c.fact)
}

/// What is said of such bytes.
#[tactic(auto, unfolding(crate::specs::Moves::mixed_words))]
pub(crate) fn mixed_words(is_mixed: bool) -> &'static str
    ensures { result.now ≡ mixed_words is_mixed }
{
    if is_mixed {
        return "; a parameter takes numbers alone, and a byte at C may be part of none";
    }
    ""
}
