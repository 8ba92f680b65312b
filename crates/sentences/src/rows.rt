//! The rows of what an instruction leads to, where they are asked.
#![tactic(auto, unfolding(crate::proofs::Opening::rows_opens))]

ghost use Rattle.std.specs.Prelude.{◌≡◌, ◌++◌, OnOk, string_bytes};
ghost use Rattle.std.specs.List.{flat_map};
ghost use Rattle.certificate.specs.Branches.{branch_at, numbered_branch};
ghost use Rattle.states.specs.Views.{state_of};
ghost use Rattle.sentences.specs.RowsAsked.{row_distance, rows_at, joined_at, joined_by, started_par};
ghost use Rattle.sentences.specs.RowsAsked.{ended_par, first_of, successor_of, rows_of, exit_rows, exits_of};
ghost use Rattle.sentences.specs.RowsAsked.{rows_behind, rows_there, rows_asked};

use crate::targets::{branch_target, row_target};
use certificate::Module;
use explanation_parts::leads::target;
use explanation_parts::sights::push_rows;
use machine_state::{Instruction, Op};
use module_format::Stack;
use prefix_decoder::Instr;
use states::{Guard, Known, Rule, State};
use std::alloc::AllocError;

/// How far the row is that a rule asks of an instruction.
fn row_distance(
    rule: Rule,
    instruction: Instruction,
    operand: i32,
    stack: Stack<Known>,
) -> Option<i32>
    ensures { result ≡ row_distance rule instruction operand stack }
{
    match rule {
        Rule::Spelling
        | Rule::InstructionStart
        | Rule::Flow
        | Rule::UnknownRegister
        | Rule::Alternation => None,
        Rule::Par => branch_target(instruction, stack),
        _ => row_target(instruction, operand, stack),
    }
}

/// Appends the rows at a distance from an offset.
fn push_rows_at(
    text: &mut String,
    module: &Module,
    next: usize,
    distance: Option<i32>,
) -> Result<(), AllocError>
    ensures { OnOk result (string_bytes text.new
        ≡ string_bytes text.old ++ rows_at «module».now next distance) }
{
    match distance {
        Some(distance) => push_rows(text, module, target(next, distance)),
        None => text.push_str(""),
    }
}

/// Where a PAR goes on of which a branch begins at an offset.
fn joined_at(module: &Module, at: u32) -> Option<u32>
    ensures { result ≡ joined_at (branch_at «module».now at) }
{
    match module.branch_at(at) {
        Some((_context, par, _branch)) => Some(par.successor),
        None => None,
    }
}

/// Where the PAR goes on of which a context is a branch.
fn joined_by(module: &Module, context: u32) -> Option<u32>
    ensures { result ≡ joined_by (numbered_branch «module».now context) }
{
    match module.branch(context) {
        Some((par, _branch)) => Some(par.successor),
        None => None,
    }
}

/// Where the PAR goes on of which a branch is started at a distance.
fn started_par(module: &Module, next: usize, distance: Option<i32>) -> Option<u32>
    ensures { result ≡ started_par «module».now next distance }
{
    match distance {
        Some(distance) => joined_at(module, target(next, distance)),
        None => None,
    }
}

/// Where the PAR goes on that an instruction ends.
fn ended_par(module: &Module, instruction: Instruction, context: u32) -> Option<u32>
    ensures { result ≡ ended_par «module».now instruction context }
{
    match instruction {
        Instruction::Operate(Op::EndProcess) => joined_by(module, context),
        _ => None,
    }
}

/// The first, if there is one, or else the second.
fn first_of(first: Option<u32>, second: Option<u32>) -> Option<u32>
    ensures { result ≡ first_of first second }
{
    match first {
        Some(offset) => Some(offset),
        None => second,
    }
}

/// Where the PAR goes on of which a rule asks.
fn successor_of(
    module: &Module,
    rule: Rule,
    instruction: Instruction,
    next: usize,
    state: &State,
) -> Option<u32>
    ensures { result ≡ successor_of «module».now rule instruction next (state_of state.now) }
{
    let started = started_par(module, next, branch_target(instruction, state.stack));
    match rule {
        Rule::Label => first_of(started, ended_par(module, instruction, state.context)),
        Rule::Forward | Rule::Par | Rule::Budget => started,
        _ => None,
    }
}

/// Appends the rows of an offset, if there is one.
fn push_rows_of(text: &mut String, module: &Module, at: Option<u32>) -> Result<(), AllocError>
    ensures { OnOk result (string_bytes text.new ≡ string_bytes text.old ++ rows_of «module».now at) }
{
    match at {
        Some(at) => push_rows(text, module, at),
        None => text.push_str(""),
    }
}

/// Appends the rows where a guard leads.
fn push_exit(
    text: &mut String,
    module: &Module,
    next: usize,
    guard: Guard,
) -> Result<(), AllocError>
    ensures { OnOk result (string_bytes text.new
        ≡ string_bytes text.old ++ exit_rows «module».now next guard) }
{
    push_rows_at(text, module, next, guard.exit)
}

/// Appends the rows where guards lead.
fn push_exits(
    text: &mut String,
    module: &Module,
    next: usize,
    guards: &[Guard],
) -> Result<(), AllocError>
    ensures { OnOk result (string_bytes text.new
        ≡ string_bytes text.old ++ flat_map (exit_rows «module».now next) guards.now) }
{
    for guard in guards {
        push_exit(text, module, next, *guard)?;
    }
    Ok(())
}

/// Appends the rows where the guards of an alternation lead that an instruction ends.
fn push_exits_of(
    text: &mut String,
    module: &Module,
    instruction: Instruction,
    next: usize,
    state: &State,
) -> Result<(), AllocError>
    ensures { OnOk result (string_bytes text.new
        ≡ string_bytes text.old ++ exits_of «module».now instruction next (state_of state.now)) }
{
    match instruction {
        Instruction::Operate(Op::AlternationEnd) => push_exits(text, module, next, &state.guards),
        _ => text.push_str(""),
    }
}

/// Appends the rows where a PAR goes on, and those where guards lead.
fn push_rows_behind(
    text: &mut String,
    module: &Module,
    rule: Rule,
    instruction: Instruction,
    next: usize,
    state: &State,
) -> Result<(), AllocError>
    ensures { OnOk result (string_bytes text.new
        ≡ string_bytes text.old ++ rows_behind «module».now rule instruction next (state_of state.now)) }
{
    push_rows_of(
        text,
        module,
        successor_of(module, rule, instruction, next, state),
    )?;
    push_exits_of(text, module, instruction, next, state)?;
    Ok(())
}

/// Appends the rows that a rule asks of an instruction.
#[tactic(auto, unfolding(crate::specs::RowsAsked::rows_there))]
fn push_rows_there(
    text: &mut String,
    module: &Module,
    rule: Rule,
    instruction: Instruction,
    next: usize,
    operand: i32,
    state: &State,
) -> Result<(), AllocError>
    ensures { OnOk result (string_bytes text.new ≡ string_bytes text.old
        ++ rows_there «module».now rule instruction next operand (state_of state.now)) }
{
    let distance = row_distance(rule, instruction, operand, state.stack);
    push_rows_at(text, module, next, distance)?;
    push_rows_behind(text, module, rule, instruction, next, state)?;
    Ok(())
}

/// Appends the rows that a rule asks of the instruction before an offset.
pub(crate) fn push_rows_asked(
    text: &mut String,
    module: &Module,
    next: usize,
    instr: Instr,
    rule: Rule,
    state: &State,
) -> Result<(), AllocError>
    ensures { OnOk result (string_bytes text.new
        ≡ string_bytes text.old ++ rows_asked «module».now next instr rule (state_of state.now)) }
{
    match Instruction::of(instr.fun, instr.operand) {
        Some(instruction) => {
            push_rows_there(text, module, rule, instruction, next, instr.operand, state)
        }
        None => text.push_str(""),
    }
}
