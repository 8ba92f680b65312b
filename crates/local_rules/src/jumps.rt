//! The rules of jumps and of the end of a process.

ghost use Rattle.states.specs.Views.{state_of, BelongsTo};
ghost use Rattle.machine_state.specs.declared.op.Op.TheVariants.{StopProcess};
ghost use Rattle.machine_state.specs.declared.instruction.Instruction.TheVariants.{Jump};
ghost use Rattle.rulings.specs.Rulings.{goes_to};
ghost use Rattle.local_rules.specs.LocalRules.{local_operation_rule, local_rule};
ghost use Rattle.rulings.specs.Telling.{Advances};
ghost use Rattle.rulings.specs.Places.{site_of};

use machine_state::Op;
use module_format::Stack;
use rulings::combinators::{alone, forward, outside_alternation, outside_starts};
use rulings::{Continuation, Place};
use states::{Known, Rule, State};

/// The process goes on at the label of the offset, where another process may run first.
fn goes_to(place: &Place, state: &mut State, to: u32) -> Result<Continuation, Rule>
    requires { BelongsTo place.now.module.now state.old }
    ensures ruling { Advances result (state_of state.new) (goes_to (site_of place.now) to (state_of state.old)) }
    ensures belongs { BelongsTo place.now.module.now state.new }
{
    outside_starts(state.mode)?;
    place.schedules(state)?;
    place.pays(state)?;
    state.stack = Stack::of_empty(Known::UNKNOWN);
    place.leads_to(state, to)
}

#[tactic(auto, unfolding(crate::specs::LocalRules::local_rule))]
pub(crate) fn jump(place: &Place, state: &mut State, distance: i32) -> Result<Continuation, Rule>
    requires { BelongsTo place.now.module.now state.old }
    ensures ruling { let ruling = local_rule (site_of place.now) Jump distance (state_of state.old) in
        Advances result (state_of state.new) ruling }
    ensures belongs { BelongsTo place.now.module.now state.new }
{
    outside_alternation(state.mode)?;
    forward(distance)?;
    goes_to(place, state, place.target(distance))
}

#[tactic(auto, unfolding(crate::specs::LocalRules::local_operation_rule))]
pub(crate) fn stop_process(place: &Place, state: &mut State) -> Result<Continuation, Rule>
    requires { BelongsTo place.now.module.now state.old }
    ensures ruling { let ruling = local_operation_rule (site_of place.now) StopProcess (state_of state.old) in
        Advances result (state_of state.new) ruling }
    ensures belongs { BelongsTo place.now.module.now state.new }
{
    alone(state.mode)?;
    place.schedules(state)?;
    place.pays(state)?;
    Ok(Continuation::Ends)
}
