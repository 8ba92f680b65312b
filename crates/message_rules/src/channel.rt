//! The channel of a message.

ghost use Rattle.std.specs.Prelude.{◌≡◌};
ghost use Rattle.states.specs.Views.{state_of};
ghost use Rattle.rulings.specs.Telling.{Admits};
ghost use Rattle.rulings.specs.Places.{site_of};
ghost use Rattle.module_format.specs.Keeping.{Keeps};
ghost use Rattle.message_rules.specs.MessageRules.{holds_end, is_length, has_length, over_channel};

use module_format::{Direction, EndKind, EndRow, Fact};
use rulings::Place;
use rulings::channels::names_channel;
use rulings::combinators::wants;
use states::{Rule, State};

/// Whether the state's context has the end of a channel in a direction.
fn holds_end(place: &Place, state: &State, kind: EndKind, direction: Direction) -> bool
    ensures { result ≡ holds_end (site_of place.now) (state_of state.now) kind direction }
{
    place
        .module
        .has_end(state.context, EndRow { kind, direction })
}

/// Whether the length of messages is `count` bytes.
fn is_length(count: i32, length: Option<u32>) -> bool
    ensures { result ≡ is_length count length }
{
    match length {
        Some(length) => i64::from(count) == i64::from(length),
        None => false,
    }
}

/// Whether the channel has messages of `count` bytes.
#[tactic(auto, using(rulings::proofs::HeldChannels::none_further))]
fn has_length(place: &Place, state: &State, kind: EndKind, count: i32) -> bool
    requires { Keeps place.now.module.now }
    ensures { result ≡ has_length (site_of place.now) (state_of state.now) kind count }
{
    is_length(count, place.message_length(state.context, kind, 0))
}

/// A word names a channel of which the context has the end, with messages of `count` bytes.
#[tactic(auto, unfolding(crate::specs::MessageRules::over_channel))]
pub(crate) fn over_channel(
    place: &Place,
    state: &State,
    fact: Fact,
    direction: Direction,
    count: i32,
) -> Result<(), Rule>
    requires { Keeps place.now.module.now }
    ensures { Admits result (over_channel (site_of place.now) (state_of state.now) fact direction count) }
{
    let kind = names_channel(fact)?;
    wants(holds_end(place, state, kind, direction), Rule::Channel)?;
    wants(has_length(place, state, kind, count), Rule::MessageLength)
}
