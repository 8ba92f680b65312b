//! The judgement on one instruction.

ghost use Rattle.std.specs.Prelude.{◌≡◌, ℕ, if◌then◌else◌, List, IfOk};
ghost use Rattle.states.specs.declared.rule.Rule.TheVariants as rules;
ghost use Rattle.module_format.specs.Contents.{Contents};
ghost use Rattle.module_format.specs.Keeping.{Keeps};
ghost use Rattle.states.specs.State.{State as Known};
ghost use Rattle.states.specs.Views.{state_of, BelongsTo, IsLeft};
ghost use Rattle.rulings.specs.Rulings.{Ruling};
ghost use Rattle.facts.specs.Rules.{is_instruction};
ghost use Rattle.rulings.specs.Telling.{Advances};
ghost use Rattle.alternation_rules.specs.Telling.{Selects};
ghost use Rattle.par_rules.specs.Telling.{Starts};
ghost use Rattle.certified_worlds.specs.Certified.{entering, state_at};
ghost use Rattle.verifier.specs.Judge.{lower, both, judged_once};
ghost use Rattle.verifier.specs.Judging.{falling_state, Judges, IsComparable, IsGiven};

use crate::rows::Given;
use crate::walk::Arrival;
use certificate::Module;
use facts::{
    Continuation, Started, Way, advance, is_instruction, leave, reserve_guards, start, way_of,
};
use machine_state::Instruction;
use prefix_decoder::Instr;
use states::{Rule, State, cost_of_label};
use std::alloc::AllocError;

/// What it costs to fall into an offset where this is given. Nothing may fall into a procedure.
pub(crate) fn entering(state: &mut State, falls: bool, given: Given) -> Result<u64, Rule>
    requires { IsComparable given }
    ensures cost { let before = falling_state falls (state_of state.old) in
        (m : Contents) (at : ℕ) → IsGiven m at given.entry → result ≡ entering m at before }
    ensures left { IsLeft state.old state.new }
{
    match given {
        Given::Label(row) if falls => cost_of_label(state, row),
        Given::Procedure { .. } if falls => Err(Rule::Flow),
        _ => Ok(0),
    }
}

/// Of two rules the one with the lower number.
fn lower(first: Rule, second: Rule) -> Rule
    ensures { result ≡ lower first second }
{
    if second.number() < first.number() {
        return second;
    }
    first
}

/// Whether a state falls into the next offset, or the lower of two rules that are broken.
fn both(entered: Result<u64, Rule>, flow: Result<Continuation, Rule>) -> Result<bool, Rule>
    ensures { (ruling : Ruling) (after : Known) → Advances flow after ruling
        → Judges result after (both entered ruling) }
{
    match (entered, flow) {
        (
            Ok(_),
            Ok(
                Continuation::Falls
                | Continuation::FallsOrLeads { .. }
                | Continuation::Calls { .. },
            ),
        ) => Ok(true),
        (Ok(_), Ok(_)) => Ok(false),
        (Ok(_), Err(rule)) => Err(rule),
        (Err(rule), Ok(_)) => Err(rule),
        (Err(first), Err(second)) => Err(lower(first, second)),
    }
}

/// Whether a state falls through the end of an alternation, which none does, or the lower of two rules that are broken.
fn both_at_end(entered: Result<u64, Rule>, left: Result<(), Rule>) -> Result<bool, Rule>
    ensures { (ruling : Ruling) (after : Known) (exits : List ℕ) → Selects left exits ruling
        → Judges result after (both entered ruling) }
{
    match (entered, left) {
        (Ok(_), Ok(())) => Ok(false),
        (Ok(_), Err(rule)) => Err(rule),
        (Err(rule), Ok(())) => Err(rule),
        (Err(first), Err(second)) => Err(lower(first, second)),
    }
}

/// Whether a state falls through the start of a branch, as each does, or the lower of two rules that are broken.
fn both_at_start(entered: Result<u64, Rule>, started: Result<Started, Rule>) -> Result<bool, Rule>
    ensures { (ruling : Ruling) (after : Known) → Starts started after ruling
        → Judges result after (both entered ruling) }
{
    match (entered, started) {
        (Ok(_), Ok(_)) => Ok(true),
        (Ok(_), Err(rule)) => Err(rule),
        (Err(rule), Ok(_)) => Err(rule),
        (Err(first), Err(second)) => Err(lower(first, second)),
    }
}

/// The rule that an instruction to which nothing leads breaks: `Rule::Spelling` if it is none of the machine, else
/// `Rule::Flow`.
fn unreached(module: &Module, instr: Instr) -> Rule
    ensures { result ≡ (if is_instruction «module».now instr then rules.Flow else rules.Spelling) }
{
    if is_instruction(module, instr) {
        return Rule::Flow;
    }
    Rule::Spelling
}

/// Takes on the state that is given at an offset, if one is. Returns whether there is a state now. `falls`: one falls
/// into the offset.
pub(crate) fn take_on<'a>(
    module: &'a Module<'a>,
    state: &mut State<'a>,
    falls: bool,
    arrival: &Arrival<'a>,
) -> bool
    requires belongs { BelongsTo «module».now state.old }
    requires here { IsGiven «module».now arrival.now.at arrival.now.given }
    ensures reached { let before = falling_state falls (state_of state.old) in
        falling_state result (state_of state.new) ≡ state_at «module».now arrival.now.at before }
    ensures belongs { BelongsTo «module».now state.new }
{
    match arrival.given {
        Given::Label(row) => state.become_label(module, row),
        Given::Procedure { context, row } => state.become_procedure(module, row, context),
        Given::Nothing => return falls,
    }
    true
}

/// One instruction: whether a state falls into the next offset, or the rule that is broken. `is_reached`: there is a
/// state at the offset. `entered`: what falling into it costs. The outer error is that memory ran out.
#[tactic(auto, unfolding(facts::specs::Rules::way_of))]
pub(crate) fn judge<'a>(
    module: &'a Module<'a>,
    state: &mut State<'a>,
    is_reached: bool,
    entered: Result<u64, Rule>,
    at: usize,
    instr: Instr,
) -> Result<Result<bool, Rule>, AllocError>
    requires belongs { BelongsTo «module».now state.old }
    requires keeps { Keeps «module».now }
    ensures judged { let reached = falling_state is_reached (state_of state.old) in
        IfOk result (λ judged. Judges judged (state_of state.new)
        (judged_once «module».now at entered instr reached)) }
    ensures belongs { BelongsTo «module».now state.new }
{
    if !is_reached {
        return Ok(Err(unreached(module, instr)));
    }
    reserve_guards(state)?;
    let instruction = Instruction::of(instr.fun, instr.operand);
    Ok(match way_of(instruction) {
        Way::GoesOn => both(entered, advance(state, module, at, instr, instruction)),
        Way::EndsAlternation => both_at_end(entered, leave(state, module, at, instr)),
        Way::StartsBranch => both_at_start(entered, start(state, module, at, instr)),
    })
}
