//! How far that is which an instruction starts or calls.

ghost use Rattle.std.specs.Prelude.{◌≡◌, ◌++◌, OnOk, string_bytes};
ghost use Rattle.sentences.specs.Targets.{branch_target, branch_part, row_target};

use certificate::Module;
use explanation_parts::begun::push_branch_begun;
use explanation_parts::leads::target;
use found_parts::constant_of;
use machine_state::{Instruction, Op};
use module_format::Stack;
use states::Known;
use std::alloc::AllocError;

/// How far a branch is that an instruction starts.
#[tactic(auto, unfolding(crate::specs::Targets::branch_target))]
pub(crate) fn branch_target(instruction: Instruction, stack: Stack<Known>) -> Option<i32>
    ensures { result ≡ branch_target instruction stack }
{
    match instruction {
        Instruction::Operate(Op::StartProcess) => constant_of(stack.b.fact),
        _ => None,
    }
}

/// Appends which branch begins where an instruction starts one.
pub(crate) fn push_branch_part(
    text: &mut String,
    module: &Module,
    instruction: Instruction,
    next: usize,
    stack: Stack<Known>,
) -> Result<(), AllocError>
    ensures { OnOk result (string_bytes text.new
        ≡ string_bytes text.old ++ branch_part «module».now next (branch_target instruction stack)) }
{
    match branch_target(instruction, stack) {
        Some(distance) => push_branch_begun(text, module, target(next, distance)),
        None => text.push_str(""),
    }
}

/// How far the row is of the procedure or the branch to which an instruction leads.
#[tactic(auto, unfolding(crate::specs::Targets::row_target))]
pub(crate) fn row_target(instruction: Instruction, operand: i32, stack: Stack<Known>) -> Option<i32>
    ensures { result ≡ row_target instruction operand stack }
{
    match instruction {
        Instruction::Call => Some(operand),
        _ => branch_target(instruction, stack),
    }
}
