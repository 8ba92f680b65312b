//! What going on at a label costs.

ghost use Rattle.std.specs.Prelude.{◌≡◌};
ghost use Rattle.module_format.specs.Contents.{label_of};
ghost use Rattle.states.specs.Below.{holds_constant};
ghost use Rattle.states.specs.Views.{state_of};
ghost use Rattle.explanation_parts.specs.Ways.{seen_in};
ghost use Rattle.explanation_parts.specs.Costs.{loop_price, entries_price, label_cost};

use crate::ways::{Way, seen_fact};
use module_format::{Entry, Fact, LabelRow};
use states::{State, WordFact};

/// Whether a word has this number, which is no loop's.
fn holds_constant(fact: WordFact, number: i64) -> bool
    ensures { result ≡ holds_constant fact number }
{
    match fact {
        WordFact::Alone(Fact::Number { lo, hi }) => i64::from(lo) == number
            && i64::from(hi) == number,
        _ => false,
    }
}

/// What it costs to enter the loop of an entry.
fn loop_price(way: Way, state: &State, entry: &Entry) -> u128
    ensures { result ≡ loop_price (seen_in way (state_of state.now)) entry.now }
{
    match entry.fact {
        Fact::Loop {
            base,
            count,
            weight,
        } => {
            let word = i64::from(entry.word);
            if !holds_constant(seen_fact(state, way, word), i64::from(base)) {
                return 0;
            }
            if !holds_constant(seen_fact(state, way, word + 1), i64::from(count)) {
                return 0;
            }
            u128::from(weight).saturating_mul(u128::from(count.saturating_sub(1)))
        }
        _ => 0,
    }
}

/// A number, and what it costs to enter the loops of entries.
fn entries_price(way: Way, state: &State, entries: &[Entry], number: u64) -> u128
    ensures { result ≡ entries_price (seen_in way (state_of state.now)) entries.now number }
{
    let mut cost = u128::from(number);
    for entry in entries {
        cost = cost.saturating_add(loop_price(way, state, entry));
    }
    cost
}

/// What going on at a label costs.
#[tactic(auto, unfolding(crate::specs::Costs::label_cost))]
pub fn label_cost(way: Way, state: &State, row: &LabelRow) -> u128
    ensures { result ≡ label_cost way (state_of state.now) (label_of row.now) }
{
    entries_price(way, state, &row.entries, row.number)
}
