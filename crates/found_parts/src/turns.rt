//! A turn of a loop: what it costs, and what it may cost.

ghost use Rattle.std.specs.Prelude.{◌≡◌};
ghost use Rattle.states.specs.Views.{state_of};
ghost use Rattle.found_parts.specs.Turns.{word_pointed, weight_in, weight_of, turn_cost, turn_of};

use module_format::Fact;
use rulings::reach::word_of_byte;
use states::{State, WordFact};

/// A turn of a loop, where it ends.
#[derive(Clone, Copy)]
pub struct Turn {
    /// What is missing for the number to be as it was when the turn began.
    pub cost: u128,
    /// What the turn may cost.
    pub weight: u64,
}

/// The word of the frame to which a pointer leads exactly.
fn word_pointed(fact: Fact) -> Option<i32>
    ensures { result ≡ word_pointed fact }
{
    match fact {
        Fact::Pointer { region, lo, hi, .. } if region.is_frame() && lo == hi => {
            Some(word_of_byte(lo))
        }
        _ => None,
    }
}

/// The weight of the loop that has a word as its index.
fn weight_in(fact: WordFact) -> Option<u64>
    ensures { result ≡ weight_in fact }
{
    match fact {
        WordFact::Index(turning) => Some(turning.weight),
        _ => None,
    }
}

/// The weight of the loop to whose index a pointer leads.
fn weight_of(state: &State, fact: Fact) -> Option<u64>
    ensures { result ≡ weight_of (state_of state.now) (word_pointed fact) }
{
    weight_in(state.fact_at(word_pointed(fact)?))
}

/// What is missing of a number, once the bytes of an instruction are paid, for what a label asks.
fn turn_cost(len: usize, number: u64, asked: u128) -> u128
    ensures { result ≡ turn_cost len number asked }
{
    asked
        .saturating_add(len as u128)
        .saturating_sub(u128::from(number))
}

/// The turn that ends at an instruction of `len` bytes, with the pointer to its block in B, where its label asks this.
#[tactic(auto, unfolding(crate::specs::Turns::turn_of))]
pub fn turn_of(state: &State, len: usize, asked: u128) -> Option<Turn>
    ensures { result ≡ turn_of (state_of state.now) len asked }
{
    let weight = weight_of(state, state.stack.b.fact)?;
    Some(Turn {
        cost: turn_cost(len, state.number, asked),
        weight,
    })
}
