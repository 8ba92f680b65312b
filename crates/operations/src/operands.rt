//! What operations on the evaluation stack have in common.

ghost use Rattle.std.specs.Prelude.{◌≡◌, ◌+◌, Some, None, nat_lt, OnOk, OnErr};
ghost use Rattle.machine_state.specs.LocalStep.{alone, uses};
ghost use Rattle.machine_state.specs.Performing.{value_or_fault, Finds};
ghost use Rattle.module_format.specs.Stack.{popped, with_top};

use machine_state::{Cpu, FaultKind, Flow};

/// The operand A of an operation that the process does alone.
pub(crate) fn operand<S>(cpu: &Cpu<S>) -> Result<i32, FaultKind>
    ensures { Finds result (λ k. alone cpu.now.mode (uses cpu.now.registers.stack.a k)) }
{
    cpu.alone()?;
    cpu.used(cpu.registers.stack.a)
}

/// A is popped, if code follows the instruction, else `OutsideCode`.
pub(crate) fn pop_one<S>(cpu: &mut Cpu<S>) -> Result<Flow, FaultKind>
    ensures followed { let follows = nat_lt (cpu.old.registers.at + 1) cpu.old.code_length in
        result ≡ value_or_fault follows Flow.Next FaultKind.OutsideCode }
    ensures ok { let stack = popped None cpu.old.registers.stack in
        OnOk result (cpu.new ≡ record cpu.old { registers = record cpu.old.registers { stack = stack } }) }
    ensures err { OnErr result (cpu.new ≡ cpu.old) }
{
    cpu.in_code(cpu.next())?;
    cpu.registers.stack.pop(None);
    Ok(Flow::Next)
}

/// The value takes the place of A and B, if code follows the instruction, else `OutsideCode`.
pub(crate) fn replace_two<S>(cpu: &mut Cpu<S>, value: i32) -> Result<Flow, FaultKind>
    ensures followed { let follows = nat_lt (cpu.old.registers.at + 1) cpu.old.code_length in
        result ≡ value_or_fault follows Flow.Next FaultKind.OutsideCode }
    ensures ok { let stack = with_top (Some value) (popped None cpu.old.registers.stack) in
        OnOk result (cpu.new ≡ record cpu.old { registers = record cpu.old.registers { stack = stack } }) }
    ensures err { OnErr result (cpu.new ≡ cpu.old) }
{
    let flow = pop_one(cpu)?;
    cpu.registers.stack.a = Some(value);
    Ok(flow)
}
