//! Where a process is.

use states::{Mode, State};
use std::fmt;

/// The context, the depth and the mode of a state.
#[derive(Clone, Copy)]
pub struct Setting {
    pub context: u32,
    pub depth: i32,
    pub mode: Mode,
}

impl Setting {
    ghost use Rattle.std.specs.Prelude.{◌≡◌};
    ghost use Rattle.states.specs.Views.{state_of};
    ghost use Rattle.state_texts.specs.StateTexts.{setting_of};

    /// The setting of a state.
    pub fn of(state: &State) -> Self
        ensures { result ≡ setting_of (state_of state.now) }
    {
        Setting {
            context: state.context,
            depth: state.depth,
            mode: state.mode,
        }
    }
}

/// A mode.
#[derive(Clone, Copy)]
pub struct ModeText(pub Mode);

impl fmt::Display for ModeText {
    ghost use Rattle.std.specs.Prelude.{Some};
    ghost use Rattle.state_texts.specs.StateTexts.{mode_text};

    ghost output = { λ mode. Some (mode_text mode.0) };

    fn fmt<W: fmt::Write>(&self, f: &mut fmt::Formatter<W>) -> fmt::Result {
        match self.0 {
            Mode::Plain => write!(f, "plain"),
            Mode::Enabling => write!(f, "enabling"),
            Mode::Disabling { done } => write!(f, "disabling, {done} disabled"),
            Mode::Starting { row, started } => write!(f, "starting PAR {row}, {started} started"),
        }
    }
}
