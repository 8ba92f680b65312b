//! The states that follow an instruction.

ghost use Rattle.std.specs.Prelude.{◌≡◌, ◌++◌, ◌+◌, [], ◌∷◌, map, true, IfOk, IfErr};
ghost use Rattle.std.specs.List.{AllByRecursion};
ghost use Rattle.alternation_rules.specs.Guards.{exits};
ghost use Rattle.rulings.specs.Places.{site_of};
ghost use Rattle.rulings.specs.Telling.{Advances};
ghost use Rattle.states.specs.Room.{HasRoomForGuards};
ghost use Rattle.par_rules.specs.Telling.{labels_of};
ghost use Rattle.states.specs.Views.{state_of, BelongsTo};
ghost use Rattle.facts.specs.Rules.{rule_at, way_of};
ghost use Rattle.facts.specs.declared.way.Way.TheVariants.{GoesOn, EndsAlternation, StartsBranch};
ghost use Rattle.states.specs.Numbers.{out_of_memory};
ghost use Rattle.facts.specs.Successions.{placed_at, states_at_labels, offset_behind, Succeeds, Follow};

use crate::advancing::{advance, leave, start};
use crate::way::{Way, way_of};
use alternation_rules::exit_at;
use certificate::Module;
use machine_state::Instruction;
use par_rules::Started;
use prefix_decoder::Instr;
use rulings::{Continuation, Place};
use states::{Guard, Rule, RuleFault, State, label_rows_are_sound};
use std::alloc::Global;

/// A state that follows an instruction, and the code offset where it holds.
#[derive(Drop)]
pub struct Successor<'a> {
    pub at: u32,
    pub state: State<'a>,
}

/// The states that follow an instruction. None follows if the process stops, or returns to its caller.
#[derive(Drop)]
pub struct Successors<'a> {
    /// The state that falls through, after the instruction; of a call, once the procedure has returned.
    pub behind: Option<Successor<'a>>,
    /// The states of the labels at which it may go on, in their order.
    pub labels: Vec<Successor<'a>>,
}

/// The offset after an instruction. Code offsets have 32 bits.
fn offset_behind(at: usize, len: usize) -> u32
    ensures { result ≡ offset_behind at len }
{
    ((at as u128 + len as u128) % (1 << 32)) as u32
}

/// Adds the state of the label at a code offset, made in place of another one, if there is a label.
fn push_label<'a>(
    labels: &mut Vec<Successor<'a>>,
    mut state: State<'a>,
    module: &'a Module<'a>,
    to: u32,
) -> Result<(), RuleFault>
    requires { BelongsTo «module».now state }
    ensures states { IfOk result (λ _. map placed_at labels.new.items
        ≡ map placed_at labels.old.items ++ states_at_labels «module».now (to ∷ [])) }
    ensures belong { AllByRecursion (λ s. BelongsTo «module».now s.state) labels.old.items
        → IfOk result (λ _. AllByRecursion (λ s. BelongsTo «module».now s.state) labels.new.items) }
    ensures memory { IfErr result (λ fault. fault ≡ out_of_memory) }
{
    label_rows_are_sound();
    if let Some(row) = module.label_at(to) {
        state.become_label(module, row);
        labels.push(Successor { at: to, state })?;
    }
    Ok(())
}

/// The state of the label at a code offset, made in place of another one, if there is a label.
fn label_at<'a>(
    alloc: Global,
    state: State<'a>,
    module: &'a Module<'a>,
    to: u32,
) -> Result<Vec<Successor<'a>>, RuleFault>
    requires { BelongsTo «module».now state }
    ensures states { IfOk result (λ labels. map placed_at labels.items ≡ states_at_labels «module».now (to ∷ [])) }
    ensures belong { IfOk result (λ labels. AllByRecursion (λ s. BelongsTo «module».now s.state) labels.items) }
    ensures memory { IfErr result (λ fault. fault ≡ out_of_memory) }
{
    let mut labels = Vec::new(alloc);
    push_label(&mut labels, state, module, to)?;
    Ok(labels)
}

/// The states of the labels to which guards lead from the end of an alternation, in the order of the guards, each made
/// of a copy of another state.
#[tactic(auto, using(crate::proofs::GuardLabels::begins, crate::proofs::GuardLabels::skips, crate::proofs::GuardLabels::goes_on, crate::proofs::GuardLabels::all, module_format::proofs::Loop::item_at))]
fn labels_of_guards<'a>(
    alloc: Global,
    state: &State<'a>,
    guards: &[Guard],
    place: &Place<'a, 'a>,
) -> Result<Vec<Successor<'a>>, RuleFault>
    requires { BelongsTo place.now.module.now state.now }
    ensures states { IfOk result (λ labels. map placed_at labels.items
        ≡ states_at_labels place.now.module.now (exits (site_of place.now) guards.now)) }
    ensures belong { IfOk result (λ labels. AllByRecursion (λ s. BelongsTo place.now.module.now s.state) labels.items) }
    ensures memory { IfErr result (λ fault. fault ≡ out_of_memory) }
{
    let mut labels = Vec::new(alloc);
    for guard in guards.iter() {
        if let Some(to) = exit_at(place, *guard) {
            push_label(&mut labels, state.copy(alloc)?, place.module, to)?;
        }
    }
    Ok(labels)
}

/// The states that follow the end of an alternation: those of the labels to which the guards lead.
fn leave_alternation<'a>(
    alloc: Global,
    module: &'a Module<'a>,
    state: &State<'a>,
    at: usize,
    instr: Instr,
) -> Result<Successors<'a>, RuleFault>
    requires belongs { BelongsTo «module».now state.now }
    requires ends { way_of instr ≡ EndsAlternation }
    ensures ruling { let ruling = rule_at «module».now at instr (state_of state.now) in
        Succeeds «module».now (offset_behind at instr.len) result ruling }
    ensures belongs { IfOk result (Follow «module».now) }
{
    let mut after = state.copy(alloc)?;
    leave(&mut after, module, at, instr)?;
    let place = Place {
        module,
        at,
        len: instr.len,
    };
    Ok(Successors {
        behind: None,
        labels: labels_of_guards(alloc, state, &state.guards, &place)?,
    })
}

/// The states of the labels at which others go on after a start, each made of a copy of another state.
fn labels_of_start<'a>(
    alloc: Global,
    state: &State<'a>,
    module: &'a Module<'a>,
    started: Started,
) -> Result<Vec<Successor<'a>>, RuleFault>
    requires { BelongsTo «module».now state.now }
    ensures states { IfOk result (λ labels. map placed_at labels.items
        ≡ states_at_labels «module».now (labels_of started)) }
    ensures belong { IfOk result (λ labels. AllByRecursion (λ s. BelongsTo «module».now s.state) labels.items) }
    ensures memory { IfErr result (λ fault. fault ≡ out_of_memory) }
{
    let mut labels = label_at(alloc, state.copy(alloc)?, module, started.branch)?;
    if let Some(to) = started.successor {
        push_label(&mut labels, state.copy(alloc)?, module, to)?;
    }
    Ok(labels)
}

/// The states that follow the start of a branch: the starter's, that of the branch, and at the first start that of the
/// label after the PAR.
fn start_branch<'a>(
    alloc: Global,
    module: &'a Module<'a>,
    state: &State<'a>,
    at: usize,
    instr: Instr,
) -> Result<Successors<'a>, RuleFault>
    requires belongs { BelongsTo «module».now state.now }
    requires starts { way_of instr ≡ StartsBranch }
    ensures ruling { let ruling = rule_at «module».now at instr (state_of state.now) in
        Succeeds «module».now (offset_behind at instr.len) result ruling }
    ensures belongs { IfOk result (Follow «module».now) }
{
    let mut state = state.copy(alloc)?;
    let started = start(&mut state, module, at, instr)?;
    Ok(Successors {
        labels: labels_of_start(alloc, &state, module, started)?,
        behind: Some(Successor {
            at: offset_behind(at, instr.len),
            state,
        }),
    })
}

/// What `advance` does, of an instruction by its spelling.
fn advance_over(
    state: &mut State,
    module: &Module,
    at: usize,
    instr: Instr,
) -> Result<Continuation, Rule>
    requires belongs { BelongsTo «module».now state.old }
    requires room { HasRoomForGuards state.old }
    requires goes_on { way_of instr ≡ GoesOn }
    ensures ruling { Advances result (state_of state.new) (rule_at «module».now at instr (state_of state.old)) }
    ensures belongs { BelongsTo «module».now state.new }
{
    let instruction = Instruction::of(instr.fun, instr.operand);
    advance(state, module, at, instr, instruction)
}

/// The states that follow an instruction that goes on at one or two places, or nowhere.
fn go_on<'a>(
    alloc: Global,
    module: &'a Module<'a>,
    state: &State<'a>,
    at: usize,
    instr: Instr,
) -> Result<Successors<'a>, RuleFault>
    requires belongs { BelongsTo «module».now state.now }
    requires goes_on { way_of instr ≡ GoesOn }
    ensures ruling { let ruling = rule_at «module».now at instr (state_of state.now) in
        Succeeds «module».now (offset_behind at instr.len) result ruling }
    ensures belongs { IfOk result (Follow «module».now) }
{
    let mut state = state.copy(alloc)?;
    let continuation = advance_over(&mut state, module, at, instr)?;
    let next = offset_behind(at, instr.len);
    match continuation {
        Continuation::Falls | Continuation::Calls { .. } => Ok(Successors {
            behind: Some(Successor { at: next, state }),
            labels: Vec::new(alloc),
        }),
        Continuation::Leads { to } => Ok(Successors {
            behind: None,
            labels: label_at(alloc, state, module, to)?,
        }),
        Continuation::FallsOrLeads { to } => Ok(Successors {
            labels: label_at(alloc, state.copy(alloc)?, module, to)?,
            behind: Some(Successor { at: next, state }),
        }),
        Continuation::Returns | Continuation::Ends => Ok(Successors {
            behind: None,
            labels: Vec::new(alloc),
        }),
    }
}

/// The states that follow the instruction at a code offset, by the rule of that instruction, each with its
/// offset. Running out of memory is reported as `states::MEMORY`.
// A body that always reports an allocation failure meets these clauses too, since no clause can say that memory is
// left: tests show the states that follow.
#[tactic(auto, unfolding(crate::specs::Rules::way_of))]
pub fn transfer<'a>(
    alloc: Global,
    module: &'a Module<'a>,
    state: &State<'a>,
    at: usize,
    instr: Instr,
) -> Result<Successors<'a>, RuleFault>
    requires { BelongsTo «module».now state.now }
    ensures ruling { let ruling = rule_at «module».now at instr (state_of state.now) in
        Succeeds «module».now (offset_behind at instr.len) result ruling }
    ensures belongs { IfOk result (Follow «module».now) }
{
    match way_of(Instruction::of(instr.fun, instr.operand)) {
        Way::GoesOn => go_on(alloc, module, state, at, instr),
        Way::EndsAlternation => leave_alternation(alloc, module, state, at, instr),
        Way::StartsBranch => start_branch(alloc, module, state, at, instr),
    }
}
