//! What is known of the registers that an instruction uses.

ghost use Rattle.std.specs.Prelude.{◌≡◌, ◌++◌, OnOk, string_bytes};
ghost use Rattle.explanation_parts.specs.Registers.{registers_found, number_found, after_mode, more_registers};

use crate::uses::Uses;
use fact_texts::{FactText, RangeText};
use module_format::Stack;
use states::Known;
use std::alloc::AllocError;

/// Appends what is known of the registers that are used.
#[tactic(auto, unfolding(crate::specs::Registers::registers_found))]
pub fn push_registers(text: &mut String, uses: Uses, stack: Stack<Known>) -> Result<(), AllocError>
    ensures { OnOk result (string_bytes text.new ≡ string_bytes text.old ++ registers_found uses stack) }
{
    let a = FactText(stack.a.fact);
    let b = FactText(stack.b.fact);
    let c = FactText(stack.c.fact);
    match uses {
        Uses::Nothing => text.push_str("no register is used"),
        Uses::A => write!(text, "A is {a}"),
        Uses::AAndB => write!(text, "A is {a} and B is {b}"),
        Uses::All => write!(text, "A is {a}, B is {b} and C is {c}"),
    }
}

/// Appends the range of a result that does not fit, or else what is known of the registers that are used.
#[tactic(auto, unfolding(crate::specs::Registers::number_found))]
pub fn push_number(
    text: &mut String,
    uses: Uses,
    stack: Stack<Known>,
    sum: Option<RangeText>,
) -> Result<(), AllocError>
    ensures { OnOk result (string_bytes text.new ≡ string_bytes text.old ++ number_found uses stack sum) }
{
    match sum {
        Some(range) => write!(text, "{range} does not"),
        None => push_registers(text, uses, stack),
    }
}

/// Appends what is known of registers, after something else.
#[tactic(auto, unfolding(crate::specs::Registers::after_mode))]
fn push_after_mode(text: &mut String, uses: Uses, stack: Stack<Known>) -> Result<(), AllocError>
    ensures { OnOk result (string_bytes text.new ≡ string_bytes text.old ++ after_mode uses stack) }
{
    text.push_str("; ")?;
    push_registers(text, uses, stack)?;
    Ok(())
}

/// Appends the same, if any are used.
#[tactic(auto, unfolding(crate::specs::Registers::more_registers))]
pub(crate) fn push_more_registers(
    text: &mut String,
    uses: Uses,
    stack: Stack<Known>,
) -> Result<(), AllocError>
    ensures { OnOk result (string_bytes text.new ≡ string_bytes text.old ++ more_registers uses stack) }
{
    match uses {
        Uses::Nothing => text.push_str(""),
        _ => push_after_mode(text, uses, stack),
    }
}
