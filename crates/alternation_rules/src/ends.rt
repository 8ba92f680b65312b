//! The rule of `altend`.

ghost use Rattle.std.specs.Prelude.{◌≡◌, List, IfOk};
ghost use Rattle.std.specs.List.{list_any, list_all};
ghost use Rattle.module_format.specs.Contents.{Contents};
ghost use Rattle.module_format.specs.Keeping.{Keeps};
ghost use Rattle.states.specs.declared.known.Guard.{Guard};
ghost use Rattle.states.specs.Views.{state_of, BelongsTo, IsLeft};
ghost use Rattle.rulings.specs.Rulings.{pays};
ghost use Rattle.rulings.specs.Telling.{Leaves};
ghost use Rattle.rulings.specs.Places.{site_of};
ghost use Rattle.alternation_rules.specs.Telling.{Selects};
ghost use Rattle.alternation_rules.specs.Guards.{exits, leads_to_label, leads_forward, label_below, exit_below};
ghost use Rattle.alternation_rules.specs.Guards.{is_below_exit, has_unpaid_exit};
ghost use Rattle.alternation_rules.specs.AlternationRules.{leaves_by_exits, altend_rule};

use crate::guards::exit_at;
use crate::modes::while_disabling;
use rulings::Place;
use rulings::combinators::wants;
use states::{Guard, Mode, Rule, State, cost_at, cost_below, label_rows_are_sound};

/// Whether a guard leads to a label.
fn leads_to_label(place: &Place, guard: Guard) -> bool
    ensures { result ≡ leads_to_label (site_of place.now) guard }
{
    match exit_at(place, guard) {
        Some(to) => place.module.label_at(to).is_some(),
        None => false,
    }
}

/// Whether each guard leads to a label.
fn all_lead_to_labels(place: &Place, guards: &[Guard]) -> bool
    ensures { result ≡ list_all (leads_to_label (site_of place.now)) guards.now }
{
    guards.iter().all(|guard| leads_to_label(place, *guard))
}

/// Whether a guard leads forward.
fn leads_forward(guard: Guard) -> bool
    ensures { result ≡ leads_forward guard }
{
    match guard.exit {
        Some(distance) => distance >= 0,
        None => false,
    }
}

/// Whether each guard leads forward.
fn all_lead_forward(guards: &[Guard]) -> bool
    ensures { result ≡ list_all leads_forward guards.now }
{
    guards.iter().all(|guard| leads_forward(*guard))
}

/// What it costs a state to go on at the label at an offset.
fn label_below(place: &Place, state: &State, to: u32) -> Result<u64, Rule>
    requires { Keeps place.now.module.now }
    ensures { result ≡ label_below (site_of place.now) (state_of state.now) to }
{
    match place.module.label_at(to) {
        Some(row) => {
            label_rows_are_sound();
            cost_below(state, row)
        }
        None => Err(Rule::Alternation),
    }
}

/// What it costs a state to go on where a guard leads.
fn exit_below(place: &Place, state: &State, guard: Guard) -> Result<u64, Rule>
    requires { Keeps place.now.module.now }
    ensures { result ≡ exit_below (site_of place.now) (state_of state.now) guard }
{
    match exit_at(place, guard) {
        Some(to) => label_below(place, state, to),
        None => Err(Rule::Alternation),
    }
}

/// Whether a state may go on where a guard leads. The comparison is remembered for the guards that lead there too.
fn is_below_exit(place: &Place, state: &mut State, guard: Guard) -> bool
    requires { BelongsTo place.now.module.now state.old }
    ensures below { result ≡ is_below_exit (site_of place.now) (state_of state.old) guard }
    ensures left { IsLeft state.old state.new }
{
    match exit_at(place, guard) {
        Some(to) => cost_at(state, to).is_ok(),
        None => false,
    }
}

/// Whether a state may go on where each guard leads.
fn is_below_each(place: &Place, state: &mut State) -> bool
    requires { BelongsTo place.now.module.now state.old }
    ensures below { let s = state_of state.old in result ≡ list_all (is_below_exit (site_of place.now) s) s.guards }
    ensures left { IsLeft state.old state.new }
{
    for number in 0..state.guards.len() {
        let guard = state.guards[number];
        if !is_below_exit(place, state, guard) {
            return false;
        }
    }
    true
}

/// Whether a state cannot pay the label to which a guard leads.
fn has_unpaid_exit(place: &Place, state: &State, guard: Guard) -> bool
    requires { Keeps place.now.module.now }
    ensures { result ≡ has_unpaid_exit (site_of place.now) (state_of state.now) guard }
{
    match exit_below(place, state, guard) {
        Ok(_cost) => false,
        Err(broken) => broken == Rule::Budget,
    }
}

/// Whether there is a label that a state cannot pay among those to which the guards lead.
fn has_unpaid(place: &Place, state: &State) -> bool
    requires { Keeps place.now.module.now }
    ensures { result ≡ list_any (has_unpaid_exit (site_of place.now) (state_of state.now)) (state_of state.now).guards }
{
    state
        .guards
        .iter()
        .any(|guard| has_unpaid_exit(place, state, *guard))
}

/// A state may go on where each guard leads. If not, the lowest rule of all is the one that is broken.
#[tactic(auto, unfolding(crate::specs::AlternationRules::leaves_by_exits))]
fn leaves_by_exits(place: &Place, state: &mut State) -> Result<(), Rule>
    requires { BelongsTo place.now.module.now state.old }
    ensures ruling { let s = state_of state.old in
        (guards : List Guard) → s.guards ≡ guards
        → Selects result (exits (site_of place.now) guards) (leaves_by_exits (site_of place.now) guards s) }
    ensures belongs { BelongsTo place.now.module.now state.new }
{
    if is_below_each(place, state) {
        return Ok(());
    }
    if has_unpaid(place, state) {
        return Err(Rule::Budget);
    }
    Err(Rule::Label)
}

/// Each byte is paid, and the guards stay.
#[tactic(auto, using(crate::proofs::Paying::paying_keeps_guards))]
fn pays(place: &Place, state: &mut State) -> Result<(), Rule>
    ensures test { Leaves result (state_of state.new) (pays (site_of place.now) (state_of state.old)) }
    ensures guards { IfOk result (λ _. (state_of state.new).guards ≡ (state_of state.old).guards) }
    ensures belongs { (m : Contents) → BelongsTo m state.old → BelongsTo m state.new }
{
    place.pays(state)?;
    Ok(())
}

/// Judges `altend`, by its rule: a process goes on at one of the labels to which the guards lead, each at the offset
/// that `exit_at` returns. Nothing goes on after the instruction, and the state is used up.
#[tactic(auto, unfolding(crate::specs::AlternationRules::altend_rule))]
#[inline(never)]
pub fn end_alternation(place: &Place, state: &mut State) -> Result<(), Rule>
    requires belongs { BelongsTo place.now.module.now state.old }
    requires keeps { Keeps place.now.module.now }
    ensures ruling { let s = state_of state.old in
        Selects result (exits (site_of place.now) s.guards) (altend_rule (site_of place.now) s) }
    ensures belongs { BelongsTo place.now.module.now state.new }
{
    let done = while_disabling(state.mode)?;
    wants(done as usize == state.guards.len(), Rule::Alternation)?;
    wants(all_lead_to_labels(place, &state.guards), Rule::Alternation)?;
    wants(all_lead_forward(&state.guards), Rule::Forward)?;
    state.mode = Mode::Plain;
    pays(place, state)?;
    leaves_by_exits(place, state)
}
