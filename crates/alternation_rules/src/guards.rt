//! The guards of an alternation.

ghost use Rattle.std.specs.Prelude.{◌≡◌, ◌<◌, ◌++◌, ◌∷◌, [], IfOk, length, vec_len, vec_capacity};
ghost use Rattle.std.specs.List.{list_any};
ghost use Rattle.states.specs.Views.{state_of};
ghost use Rattle.rulings.specs.Rulings.{settles};
ghost use Rattle.rulings.specs.Telling.{Gives};
ghost use Rattle.rulings.specs.Places.{site_of};
ghost use Rattle.states.specs.declared.state.TheConstants.{MAX_GUARDS};
ghost use Rattle.alternation_rules.specs.Guards.{is_same_kind, is_same_name, is_guard, is_named_by, source_name};
ghost use Rattle.alternation_rules.specs.Guards.{name_of, guard_channel, distance_of, is_new, has_room, guard_at};
ghost use Rattle.alternation_rules.specs.Guards.{enabled_guard, exit_at, is_off_scheduling, may_name};

use module_format::{EndKind, Fact};
use rulings::Place;
use rulings::channels::{channel_of, channels_meet};
use states::{Guard, GuardKind, GuardName, Known, MAX_GUARDS, Rule, Source, State, WordFact};

/// Whether two guards wait for the same channel, or both for nothing.
fn is_same_kind(kind: GuardKind, other: GuardKind) -> bool
    ensures { result ≡ is_same_kind kind other }
{
    match (kind, other) {
        (GuardKind::Channel(kind), GuardKind::Channel(other)) => channels_meet(kind, 1, other, 1),
        (GuardKind::Skip, GuardKind::Skip) => true,
        _ => false,
    }
}

/// Whether two names are the same.
fn is_same_name(name: GuardName, other: GuardName) -> bool
    ensures { result ≡ is_same_name name other }
{
    match (name, other) {
        (GuardName::Constant(value), GuardName::Constant(other)) => value == other,
        (GuardName::Word(word), GuardName::Word(other)) => word == other,
        _ => false,
    }
}

/// Whether a guard waits for this and has this name.
pub(crate) fn is_guard(kind: GuardKind, name: GuardName, guard: Guard) -> bool
    ensures { result ≡ is_guard kind name guard }
{
    is_same_kind(guard.kind, kind) && is_same_name(guard.name, name)
}

/// Whether the value of this word is a guard's.
fn is_named_by(word: i32, guard: Guard) -> bool
    ensures { result ≡ is_named_by word guard }
{
    is_same_name(guard.name, GuardName::Word(word))
}

/// Whether the value of this word is that of one of the guards.
pub(crate) fn is_any_named_by(word: i32, guards: &[Guard]) -> bool
    ensures { result ≡ list_any (is_named_by word) guards.now }
{
    guards.iter().any(|guard| is_named_by(word, *guard))
}

/// The word that a number comes from.
fn source_name(source: Source) -> Result<GuardName, Rule>
    ensures { result ≡ source_name source }
{
    match source {
        Source::From { word } => Ok(GuardName::Word(word)),
        _ => Err(Rule::Alternation),
    }
}

/// Whether a word is none of the three below the workspace.
fn is_off_scheduling(depth: i32, word: i32) -> bool
    ensures { result ≡ is_off_scheduling depth word }
{
    i64::from(word) < i64::from(depth) - 3 || depth <= word
}

/// Whether a guard may be enabled by a name: a constant, or a word that the context may read and scheduling leaves.
pub(crate) fn may_name(place: &Place, state: &State, name: GuardName) -> bool
    ensures { result ≡ may_name (site_of place.now) (state_of state.now) name }
{
    match name {
        GuardName::Constant(_) => true,
        GuardName::Word(word) => {
            let may_read = place.module.may_read_word(state.context, i64::from(word));
            may_read && is_off_scheduling(state.depth, word)
        }
    }
}

/// What the truth of a number is known by: its value, if it is a constant, or the word that it comes from.
#[tactic(auto, unfolding(rulings::specs::Rulings::settles, crate::specs::Guards::name_of))]
pub(crate) fn name_of(known: Known) -> Result<GuardName, Rule>
    ensures { Gives (λ name. name) result (settles (name_of known)) }
{
    match known.fact {
        Fact::Number { lo, hi } if lo == hi => Ok(GuardName::Constant(lo)),
        Fact::Number { .. } => source_name(known.source),
        _ => Err(Rule::Alternation),
    }
}

/// The channel that a word names, where a guard is disabled.
#[tactic(auto, unfolding(rulings::specs::Rulings::settles, crate::specs::Guards::guard_channel))]
pub(crate) fn guard_channel(fact: Fact) -> Result<EndKind, Rule>
    ensures { Gives (λ kind. kind) result (settles (guard_channel fact)) }
{
    channel_of(WordFact::Alone(fact)).ok_or(Rule::Alternation)
}

/// How far after `altend` a guard leads: a constant.
#[tactic(auto, unfolding(rulings::specs::Rulings::settles, crate::specs::Guards::distance_of))]
pub(crate) fn distance_of(fact: Fact) -> Result<i32, Rule>
    ensures { Gives (λ distance. distance) result (settles (distance_of fact)) }
{
    match fact {
        Fact::Number { lo, hi } if lo == hi => Ok(lo),
        _ => Err(Rule::Alternation),
    }
}

/// Whether one of the guards waits for this.
fn is_any_of_kind(kind: GuardKind, guards: &[Guard]) -> bool
    ensures { result ≡ list_any (λ guard. is_same_kind guard.kind kind) guards.now }
{
    guards.iter().any(|guard| is_same_kind(guard.kind, kind))
}

/// Whether a guard that waits for this may be enabled besides: a skip may be enabled again, a channel may not.
pub(crate) fn is_new(kind: GuardKind, guards: &[Guard]) -> bool
    ensures { result ≡ is_new kind guards.now }
{
    match kind {
        GuardKind::Skip => true,
        GuardKind::Channel(_) => !is_any_of_kind(kind, guards),
    }
}

/// Whether there may be one guard more.
pub(crate) fn has_room(guards: &[Guard]) -> bool
    ensures { result ≡ has_room guards.now }
{
    guards.len() < MAX_GUARDS
}

/// The guard of this number.
#[tactic(auto, unfolding(rulings::specs::Rulings::settles, crate::specs::Guards::guard_at))]
pub(crate) fn guard_at(guards: &[Guard], number: u32) -> Result<Guard, Rule>
    ensures guard { Gives (λ guard. guard) result (settles (guard_at guards.now number)) }
    ensures few { IfOk result (λ _. number < MAX_GUARDS) }
    ensures there { IfOk result (λ _. number < length guards.now) }
{
    if number as usize >= MAX_GUARDS {
        return Err(Rule::Alternation);
    }
    match guards.get(number as usize) {
        Some(guard) => Ok(*guard),
        None => Err(Rule::Alternation),
    }
}

/// One guard more is enabled, in memory that is there.
pub(crate) fn enable(guards: &mut Vec<Guard>, kind: GuardKind, name: GuardName)
    requires { vec_len guards.old < vec_capacity guards.old }
    ensures { guards.new.items ≡ guards.old.items ++ enabled_guard kind name ∷ [] }
{
    let guard = Guard {
        kind,
        name,
        exit: None,
    };
    match guards.push(guard) {
        Ok(()) => {}
        Err(_failed) => {}
    }
}

/// The code offset to which a guard leads that is disabled.
pub fn exit_at(place: &Place, guard: Guard) -> Option<u32>
    ensures { result ≡ exit_at (site_of place.now) guard }
{
    match guard.exit {
        Some(distance) => Some(place.target(distance)),
        None => None,
    }
}
