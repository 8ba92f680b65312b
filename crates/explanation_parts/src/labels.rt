//! Where an instruction leads, and what the label there wants.

ghost use Rattle.std.specs.Prelude.{◌≡◌, ◌<◌, ◌^◌, ◌++◌, OnOk, string_bytes};
ghost use Rattle.states.specs.Views.{state_of};
ghost use Rattle.explanation_parts.specs.Labels.{way_found, label_found};

use crate::leads::push_lead_lack;
use crate::modes::push_guards;
use crate::places::{Spot, push_target};
use crate::registers::push_registers;
use crate::uses::used_by;
use certificate::Module;
use machine_state::{Instruction, Op};
use states::State;
use std::alloc::AllocError;

/// Appends where an instruction leads, or by what: guards, or registers.
#[tactic(auto, unfolding(crate::specs::Labels::way_found))]
pub fn push_way(text: &mut String, spot: Spot, state: &State) -> Result<(), AllocError>
    requires { spot.next < 2 ^ 32 }
    ensures { OnOk result (string_bytes text.new ≡ string_bytes text.old
        ++ way_found spot.instruction spot.next spot.instr.operand (state_of state.now)) }
{
    match spot.instruction {
        Instruction::Operate(Op::AlternationEnd) => push_guards(text, state),
        Instruction::Operate(op) => push_registers(text, used_by(op), state.stack),
        _ => push_target(text, spot.next, spot.instr.operand),
    }
}

/// Appends where an instruction leads, and what the label there wants that is not known.
#[tactic(auto, unfolding(crate::specs::Labels::label_found))]
pub fn push_label(
    text: &mut String,
    module: &Module,
    spot: Spot,
    state: &State,
) -> Result<(), AllocError>
    requires { spot.next < 2 ^ 32 }
    ensures { OnOk result (string_bytes text.new ≡ string_bytes text.old
        ++ label_found «module».now spot.instruction spot.next spot.instr.operand (state_of state.now)) }
{
    push_way(text, spot, state)?;
    push_lead_lack(
        text,
        module,
        spot.instruction,
        spot.next,
        spot.instr.operand,
        state,
    )?;
    Ok(())
}
