//! Modes, guards, and what is used for a PAR.

ghost use Rattle.std.specs.Prelude.{◌≡◌, ◌++◌, OnOk, string_bytes};
ghost use Rattle.states.specs.Views.{state_of};
ghost use Rattle.explanation_parts.specs.Modes.{mode_found, count_found, guards_found, par_found};

use crate::registers::push_more_registers;
use crate::uses::used_for_pars;
use machine_state::Instruction;
use state_texts::ModeText;
use states::{Mode, State};
use std::alloc::AllocError;

/// Appends the mode.
#[tactic(auto, unfolding(crate::specs::Modes::mode_found))]
fn push_mode(text: &mut String, mode: Mode) -> Result<(), AllocError>
    ensures { OnOk result (string_bytes text.new ≡ string_bytes text.old ++ mode_found mode) }
{
    let mode = ModeText(mode);
    write!(text, "the mode is {mode}")
}

/// Appends how many guards there are.
#[tactic(auto, unfolding(crate::specs::Modes::count_found))]
fn push_count(text: &mut String, state: &State) -> Result<(), AllocError>
    ensures { OnOk result (string_bytes text.new ≡ string_bytes text.old ++ count_found (state_of state.now)) }
{
    let count = state.guards.len();
    write!(text, ", guards: {count}")
}

/// Appends the mode, and how many guards there are.
#[tactic(auto, unfolding(crate::specs::Modes::guards_found))]
pub fn push_guards(text: &mut String, state: &State) -> Result<(), AllocError>
    ensures { OnOk result (string_bytes text.new ≡ string_bytes text.old ++ guards_found (state_of state.now)) }
{
    push_mode(text, state.mode)?;
    push_count(text, state)?;
    Ok(())
}

/// Appends the mode, and the registers that are used for a PAR.
#[tactic(auto, unfolding(crate::specs::Modes::par_found))]
pub fn push_par(
    text: &mut String,
    instruction: Instruction,
    state: &State,
) -> Result<(), AllocError>
    ensures { OnOk result (string_bytes text.new
        ≡ string_bytes text.old ++ par_found instruction (state_of state.now)) }
{
    push_mode(text, state.mode)?;
    push_more_registers(text, used_for_pars(instruction), state.stack)?;
    Ok(())
}
