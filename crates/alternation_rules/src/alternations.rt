//! The rules of the operations of an alternation that go on after themselves.

ghost use Rattle.std.specs.Prelude.{◌≡◌};
ghost use Rattle.states.specs.Views.{state_of, BelongsTo};
ghost use Rattle.rulings.specs.Telling.{Advances};
ghost use Rattle.rulings.specs.Places.{site_of};
ghost use Rattle.module_format.specs.Stack.{of_empty, with_top};
ghost use Rattle.states.specs.State.{unknown};
ghost use Rattle.states.specs.Room.{HasRoomForGuards};
ghost use Rattle.alternation_rules.specs.AlternationRules.{alt_rule, enables, enbc_rule, enbs_rule, altwt_rule};
ghost use Rattle.alternation_rules.specs.AlternationRules.{disables, disc_rule, diss_rule, alternation_rule};

use crate::guards::{
    distance_of, enable, guard_at, guard_channel, has_room, is_any_named_by, is_guard, is_new,
    may_name, name_of,
};
use crate::modes::{keeps_selection, may_receive, while_disabling, while_enabling, while_plain};
use machine_state::Op;
use module_format::{Fact, Stack};
use rulings::channels::names_channel;
use rulings::combinators::{uses, wants};
use rulings::pointers::is_near_pointer;
use rulings::{Continuation, Place};
use states::{Guard, GuardKind, Known, Mode, Rule, State};

/// This is in A, and nothing is known of B and C.
fn a_alone(value: Known) -> Stack<Known>
    ensures { result ≡ with_top value (of_empty unknown) }
{
    Stack {
        a: value,
        b: Known::UNKNOWN,
        c: Known::UNKNOWN,
    }
}

/// `alt`: an alternation begins, with no guards.
#[tactic(auto, unfolding(crate::specs::AlternationRules::alt_rule))]
fn begin(place: &Place, state: &mut State) -> Result<Continuation, Rule>
    requires { BelongsTo place.now.module.now state.old }
    ensures ruling { Advances result (state_of state.new) (alt_rule (site_of place.now) (state_of state.old)) }
    ensures belongs { BelongsTo place.now.module.now state.new }
{
    while_plain(state.mode)?;
    place.schedules(state)?;
    state.mode = Mode::Enabling;
    state.guards.clear();
    place.goes_on(state)
}

/// A guard that waits for this is enabled, by the name that A has.
#[tactic(auto, unfolding(crate::specs::AlternationRules::enables))]
fn enables(place: &Place, state: &mut State, kind: GuardKind) -> Result<Continuation, Rule>
    requires belongs { BelongsTo place.now.module.now state.old }
    requires room { HasRoomForGuards state.old }
    ensures ruling { Advances result (state_of state.new) (enables (site_of place.now) (state_of state.old) kind) }
    ensures belongs { BelongsTo place.now.module.now state.new }
{
    while_enabling(state.mode)?;
    wants(is_new(kind, &state.guards), Rule::Alternation)?;
    wants(has_room(&state.guards), Rule::Alternation)?;
    let name = name_of(state.stack.a)?;
    wants(may_name(place, state, name), Rule::Alternation)?;
    enable(&mut state.guards, kind, name);
    state.stack = a_alone(state.stack.a);
    place.goes_on(state)
}

/// `enbc`: the channel that B names is enabled, if A is true.
#[tactic(auto, unfolding(crate::specs::AlternationRules::enbc_rule))]
fn enable_channel(place: &Place, state: &mut State) -> Result<Continuation, Rule>
    requires belongs { BelongsTo place.now.module.now state.old }
    requires room { HasRoomForGuards state.old }
    ensures ruling { Advances result (state_of state.new) (enbc_rule (site_of place.now) (state_of state.old)) }
    ensures belongs { BelongsTo place.now.module.now state.new }
{
    uses(state.stack.a)?;
    let b = uses(state.stack.b)?;
    let kind = names_channel(b)?;
    wants(may_receive(place, state, kind), Rule::Channel)?;
    enables(place, state, GuardKind::Channel(kind))
}

/// `enbs`: a skip is enabled, if A is true.
#[tactic(auto, unfolding(crate::specs::AlternationRules::enbs_rule))]
fn enable_skip(place: &Place, state: &mut State) -> Result<Continuation, Rule>
    requires belongs { BelongsTo place.now.module.now state.old }
    requires room { HasRoomForGuards state.old }
    ensures ruling { Advances result (state_of state.new) (enbs_rule (site_of place.now) (state_of state.old)) }
    ensures belongs { BelongsTo place.now.module.now state.new }
{
    uses(state.stack.a)?;
    enables(place, state, GuardKind::Skip)
}

/// `altwt`: it waits until a guard is ready.
#[tactic(auto, unfolding(crate::specs::AlternationRules::altwt_rule))]
fn wait(place: &Place, state: &mut State) -> Result<Continuation, Rule>
    requires { BelongsTo place.now.module.now state.old }
    ensures ruling { Advances result (state_of state.new) (altwt_rule (site_of place.now) (state_of state.old)) }
    ensures belongs { BelongsTo place.now.module.now state.new }
{
    while_enabling(state.mode)?;
    let is_named = is_any_named_by(state.depth, &state.guards);
    wants(!is_named, Rule::Alternation)?;
    place.schedules(state)?;
    keeps_selection(place, state)?;
    state.mode = Mode::Disabling { done: 0 };
    state.stack = Stack::of_empty(Known::UNKNOWN);
    place.goes_on(state)
}

/// The guard that is disabled next waits for this, and has the name that B has. If it is selected, the process goes on
/// `distance` bytes after `altend`.
#[tactic(auto, unfolding(crate::specs::AlternationRules::disables))]
fn disables(
    place: &Place,
    state: &mut State,
    kind: GuardKind,
    distance: Fact,
) -> Result<Continuation, Rule>
    requires { BelongsTo place.now.module.now state.old }
    ensures ruling { let ruling = disables (site_of place.now) (state_of state.old) kind distance in
        Advances result (state_of state.new) ruling }
    ensures belongs { BelongsTo place.now.module.now state.new }
{
    let done = while_disabling(state.mode)?;
    let guard = guard_at(&state.guards, done)?;
    let name = name_of(state.stack.b)?;
    wants(is_guard(kind, name, guard), Rule::Alternation)?;
    let distance = distance_of(distance)?;
    state.guards[done as usize] = Guard {
        exit: Some(distance),
        ..guard
    };
    state.mode = Mode::Disabling { done: done + 1 };
    state.stack = a_alone(Known::of(Fact::Number { lo: 0, hi: 1 }));
    keeps_selection(place, state)?;
    place.goes_on(state)
}

/// `disc`: the guard of the channel that C names is disabled.
#[tactic(auto, unfolding(crate::specs::AlternationRules::disc_rule))]
fn disable_channel(place: &Place, state: &mut State) -> Result<Continuation, Rule>
    requires { BelongsTo place.now.module.now state.old }
    ensures ruling { Advances result (state_of state.new) (disc_rule (site_of place.now) (state_of state.old)) }
    ensures belongs { BelongsTo place.now.module.now state.new }
{
    let a = uses(state.stack.a)?;
    uses(state.stack.b)?;
    let c = uses(state.stack.c)?;
    wants(is_near_pointer(c), Rule::Pointer)?;
    let kind = guard_channel(c)?;
    wants(may_receive(place, state, kind), Rule::Alternation)?;
    disables(place, state, GuardKind::Channel(kind), a)
}

/// `diss`: a skip is disabled.
#[tactic(auto, unfolding(crate::specs::AlternationRules::diss_rule))]
fn disable_skip(place: &Place, state: &mut State) -> Result<Continuation, Rule>
    requires { BelongsTo place.now.module.now state.old }
    ensures ruling { Advances result (state_of state.new) (diss_rule (site_of place.now) (state_of state.old)) }
    ensures belongs { BelongsTo place.now.module.now state.new }
{
    let a = uses(state.stack.a)?;
    uses(state.stack.b)?;
    disables(place, state, GuardKind::Skip, a)
}

/// Takes a state over an operation of this family, by the rule of that operation, and reports how a process goes on
/// there. If the rule is broken, the state is left part of the way. `altend`, of which nothing goes on after itself,
/// has `end_alternation`; it and an operation of another family break `Rule::Spelling` here.
#[tactic(auto, unfolding(crate::specs::AlternationRules::alternation_rule))]
#[inline(never)]
pub fn advance_alternation(place: &Place, state: &mut State, op: Op) -> Result<Continuation, Rule>
    requires belongs { BelongsTo place.now.module.now state.old }
    requires room { HasRoomForGuards state.old }
    ensures ruling { let ruling = alternation_rule (site_of place.now) op (state_of state.old) in
        Advances result (state_of state.new) ruling }
    ensures belongs { BelongsTo place.now.module.now state.new }
{
    match op {
        Op::Alternate => begin(place, state),
        Op::EnableChannel => enable_channel(place, state),
        Op::EnableSkip => enable_skip(place, state),
        Op::AlternationWait => wait(place, state),
        Op::DisableChannel => disable_channel(place, state),
        Op::DisableSkip => disable_skip(place, state),
        _ => Err(Rule::Spelling),
    }
}
