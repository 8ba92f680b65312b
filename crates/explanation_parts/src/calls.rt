//! Where a call leads, and what is asked at a return.

ghost use Rattle.std.specs.Prelude.{◌≡◌, ◌<◌, ◌^◌, ◌++◌, OnOk, string_bytes};
ghost use Rattle.module_format.specs.Contents.{contents_of};
ghost use Rattle.states.specs.Views.{state_of};
ghost use Rattle.explanation_parts.specs.Calls.{context_found, depth_found, word_zero_found, first_word_found};
ghost use Rattle.explanation_parts.specs.Calls.{return_found, in_context, callee_found, call_target, call_found};

use crate::begun::push_procedure_begun;
use crate::leads::target;
use crate::places::{Spot, push_target};
use certificate::Module;
use fact_texts::context_text;
use machine_state::Instruction;
use module_format::Tables;
use state_texts::WordText;
use states::{State, WordFact};
use std::alloc::AllocError;

/// Appends the context.
#[tactic(auto, unfolding(crate::specs::Calls::context_found))]
fn push_context(text: &mut String, tables: &Tables<'_>, number: u32) -> Result<(), AllocError>
    ensures { OnOk result (string_bytes text.new
        ≡ string_bytes text.old ++ context_found (contents_of tables.now) number) }
{
    let context = context_text(tables, number);
    write!(text, "the context is {context}")
}

/// Appends the depth.
#[tactic(auto, unfolding(crate::specs::Calls::depth_found))]
fn push_depth(text: &mut String, depth: i32) -> Result<(), AllocError>
    ensures { OnOk result (string_bytes text.new ≡ string_bytes text.old ++ depth_found depth) }
{
    write!(text, ", the depth {depth}")
}

/// Appends what word 0 has.
#[tactic(auto, unfolding(crate::specs::Calls::word_zero_found))]
fn push_word_zero(text: &mut String, fact: WordFact) -> Result<(), AllocError>
    ensures { OnOk result (string_bytes text.new ≡ string_bytes text.old ++ word_zero_found fact) }
{
    let word = WordText(fact);
    write!(text, " and word 0 is {word}")
}

/// Appends the depth, and what word 0 has.
#[tactic(auto, unfolding(crate::specs::Calls::first_word_found))]
fn push_first_word(text: &mut String, state: &State) -> Result<(), AllocError>
    ensures { OnOk result (string_bytes text.new
        ≡ string_bytes text.old ++ first_word_found (state_of state.now)) }
{
    push_depth(text, state.depth)?;
    push_word_zero(text, state.fact_of(0))?;
    Ok(())
}

/// Appends what is asked at a return.
#[tactic(auto, unfolding(crate::specs::Calls::return_found))]
fn push_return(text: &mut String, tables: &Tables<'_>, state: &State) -> Result<(), AllocError>
    ensures { OnOk result (string_bytes text.new
        ≡ string_bytes text.old ++ return_found (contents_of tables.now) (state_of state.now)) }
{
    push_context(text, tables, state.context)?;
    push_first_word(text, state)?;
    Ok(())
}

/// Appends the context after something else.
#[tactic(auto, unfolding(crate::specs::Calls::in_context))]
fn push_in_context(text: &mut String, tables: &Tables<'_>, number: u32) -> Result<(), AllocError>
    ensures { OnOk result (string_bytes text.new
        ≡ string_bytes text.old ++ in_context (contents_of tables.now) number) }
{
    text.push_str("; ")?;
    push_context(text, tables, number)?;
    Ok(())
}

/// Appends which procedure begins at an offset, and the context of the call.
#[tactic(auto, unfolding(crate::specs::Calls::callee_found))]
fn push_callee(text: &mut String, module: &Module, to: u32, context: u32) -> Result<(), AllocError>
    ensures { OnOk result (string_bytes text.new
        ≡ string_bytes text.old ++ callee_found «module».now to context) }
{
    push_procedure_begun(text, module, to)?;
    push_in_context(text, module.tables(), context)?;
    Ok(())
}

/// Appends where a call leads, which procedure begins there, and the context.
#[tactic(auto, unfolding(crate::specs::Calls::call_target))]
fn push_call_target(
    text: &mut String,
    module: &Module,
    spot: Spot,
    context: u32,
) -> Result<(), AllocError>
    requires { spot.next < 2 ^ 32 }
    ensures { OnOk result (string_bytes text.new ≡ string_bytes text.old
        ++ call_target «module».now spot.next spot.instr.operand context) }
{
    let to = target(spot.next, spot.instr.operand);
    push_target(text, spot.next, spot.instr.operand)?;
    push_callee(text, module, to, context)?;
    Ok(())
}

/// Appends where a call leads, or what is asked at a return.
#[tactic(auto, unfolding(crate::specs::Calls::call_found))]
pub fn push_call(
    text: &mut String,
    module: &Module,
    spot: Spot,
    state: &State,
) -> Result<(), AllocError>
    requires { spot.next < 2 ^ 32 }
    ensures { OnOk result (string_bytes text.new ≡ string_bytes text.old
        ++ call_found «module».now spot.instruction spot.next spot.instr.operand (state_of state.now)) }
{
    match spot.instruction {
        Instruction::Operate(_) => push_return(text, module.tables(), state),
        _ => push_call_target(text, module, spot, state.context),
    }
}
