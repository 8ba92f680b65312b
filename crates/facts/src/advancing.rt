//! The rule of an instruction, on a state in place.

ghost use Rattle.std.specs.Prelude.{◌≡◌, true, false, OnOk};
ghost use Rattle.machine_state.specs.Instructions.{instruction_of};
ghost use Rattle.states.specs.Views.{state_of, BelongsTo};
ghost use Rattle.states.specs.Room.{HasRoomForGuards};
ghost use Rattle.rulings.specs.Places.{site_of};
ghost use Rattle.facts.specs.Rules.{is_instruction, rule_at, site_at, way_of};
ghost use Rattle.facts.specs.declared.way.Way.TheVariants.{GoesOn, EndsAlternation, StartsBranch};
ghost use Rattle.par_rules.specs.Telling.{Starts};
ghost use Rattle.rulings.specs.Telling.{Advances};
ghost use Rattle.module_format.specs.Contents.{Contents};
ghost use Rattle.module_format.specs.Keeping.{Keeps};
ghost use Rattle.alternation_rules.specs.Guards.{exits};
ghost use Rattle.alternation_rules.specs.Telling.{Selects};

use alternation_rules::{advance_alternation, end_alternation};
use call_rules::{call, return_to_caller};
use certificate::Module;
use local_rules::advance_locally;
use machine_state::{Instruction, Op};
use message_rules::advance_message;
use par_rules::{Started, end_process, start_process};
use prefix_decoder::Instr;
use rulings::{Continuation, Place};
use states::{MAX_GUARDS, Rule, State};
use std::alloc::AllocError;

/// Whether this is an instruction of the machine for a module. What is none breaks `Rule::Spelling` wherever it is: a
/// spelling of no operation, and one of the long operations, unless the module says that it has them.
#[tactic(auto, unfolding(crate::specs::Rules::is_instruction))]
pub fn is_instruction(module: &Module, instr: Instr) -> bool
    ensures { result ≡ is_instruction «module».now instr }
{
    match Instruction::of(instr.fun, instr.operand) {
        Some(Instruction::Operate(Op::Long(_))) => module.tables().has_long_operations,
        Some(_) => true,
        None => false,
    }
}

/// The place of the instruction at a code offset.
fn place_of<'s, 'm>(module: &'s Module<'m>, at: usize, instr: Instr) -> Place<'s, 'm>
    ensures is { site_of result ≡ site_at «module».now at instr }
    ensures module { result.module.now ≡ «module».now }
{
    Place {
        module,
        at,
        len: instr.len,
    }
}

/// Makes sure that a state has capacity for as many guards as an alternation may have. Each state is made with that
/// capacity, so that nothing is allocated, and what is known does not change. The only error is that memory ran out.
pub fn reserve_guards(state: &mut State) -> Result<(), AllocError>
    ensures same { state_of state.new ≡ state_of state.old }
    ensures room { OnOk result (HasRoomForGuards state.new) }
    ensures belongs { (m : Contents) → BelongsTo m state.old → BelongsTo m state.new }
{
    let missing = MAX_GUARDS.saturating_sub(state.guards.len());
    state.guards.reserve(missing)
}

/// Takes a state over the instruction at a code offset, by the rule of that instruction, and reports how a process goes
/// on there: a jump leads to the label at its code offset. If the rule is broken, the state is left part of the way.
/// `instruction` is what `Instruction::of` says, so that it is asked once. The end of an alternation has `leave`, and the
/// start of a branch `start`.
#[tactic(auto, unfolding(crate::specs::Rules::rule, crate::specs::Rules::rule_of, crate::specs::Rules::instruction_rule, crate::specs::Rules::operation_rule, crate::specs::Rules::way_of, local_rules::specs::LocalRules::local_rule))]
pub fn advance(
    state: &mut State,
    module: &Module,
    at: usize,
    instr: Instr,
    instruction: Option<Instruction>,
) -> Result<Continuation, Rule>
    requires decoded { instruction ≡ instruction_of instr.fun instr.operand }
    requires belongs { BelongsTo «module».now state.old }
    requires room { HasRoomForGuards state.old }
    requires goes_on { way_of instr ≡ GoesOn }
    ensures ruling { Advances result (state_of state.new) (rule_at «module».now at instr (state_of state.old)) }
    ensures belongs { BelongsTo «module».now state.new }
{
    let place = place_of(module, at, instr);
    let instruction = instruction.ok_or(Rule::Spelling)?;
    match instruction {
        Instruction::Call => call(&place, state, instr.operand),
        Instruction::Operate(Op::Return) => return_to_caller(&place, state),
        Instruction::Operate(Op::EndProcess) => end_process(&place, state),
        Instruction::Operate(Op::Input) => advance_message(&place, state, Op::Input),
        Instruction::Operate(Op::Output) => advance_message(&place, state, Op::Output),
        Instruction::Operate(Op::Alternate) => { advance_alternation(&place, state, Op::Alternate) }
        Instruction::Operate(Op::EnableChannel) => {
            advance_alternation(&place, state, Op::EnableChannel)
        }
        Instruction::Operate(Op::EnableSkip) => {
            advance_alternation(&place, state, Op::EnableSkip)
        }
        Instruction::Operate(Op::AlternationWait) => {
            advance_alternation(&place, state, Op::AlternationWait)
        }
        Instruction::Operate(Op::DisableChannel) => {
            advance_alternation(&place, state, Op::DisableChannel)
        }
        Instruction::Operate(Op::DisableSkip) => {
            advance_alternation(&place, state, Op::DisableSkip)
        }
        Instruction::Operate(Op::AlternationEnd | Op::StartProcess) => Err(Rule::Spelling),
        _ => advance_locally(&place, state, instruction, instr.operand),
    }
}

/// Takes a state over the end of an alternation at a code offset, by its rule: a process goes on at one of the labels
/// to which the guards lead. If the rule is broken, the state is left part of the way.
#[tactic(auto, unfolding(crate::specs::Rules::rule, crate::specs::Rules::rule_of, crate::specs::Rules::instruction_rule, crate::specs::Rules::operation_rule, crate::specs::Rules::way_of))]
pub fn leave(state: &mut State, module: &Module, at: usize, instr: Instr) -> Result<(), Rule>
    requires belongs { BelongsTo «module».now state.old }
    requires keeps { Keeps «module».now }
    requires ends { way_of instr ≡ EndsAlternation }
    ensures ruling { let s = state_of state.old in
        Selects result (exits (site_at «module».now at instr) s.guards) (rule_at «module».now at instr s) }
    ensures belongs { BelongsTo «module».now state.new }
{
    end_alternation(&place_of(module, at, instr), state)
}

/// Takes a state over the start of a branch at a code offset, by its rule: the process goes on after it in the state
/// that is left, and others at the labels that are reported. If the rule is broken, the state is left part of the way.
#[tactic(auto, unfolding(crate::specs::Rules::rule, crate::specs::Rules::rule_of, crate::specs::Rules::instruction_rule, crate::specs::Rules::operation_rule, crate::specs::Rules::way_of))]
pub fn start(state: &mut State, module: &Module, at: usize, instr: Instr) -> Result<Started, Rule>
    requires belongs { BelongsTo «module».now state.old }
    requires starts { way_of instr ≡ StartsBranch }
    ensures ruling { Starts result (state_of state.new) (rule_at «module».now at instr (state_of state.old)) }
    ensures belongs { BelongsTo «module».now state.new }
{
    start_process(&place_of(module, at, instr), state)
}
