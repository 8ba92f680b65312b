//! The registers, the number and the setting of a state, in words.

ghost use Rattle.std.specs.Prelude.{◌≡◌, ◌++◌, OnOk, Some, string_bytes};
ghost use Rattle.module_format.specs.Contents.{contents_of};
ghost use Rattle.states.specs.Views.{state_of};
ghost use Rattle.state_texts.specs.StateTexts.{changes_text, context_change, depth_change, is_in_text, is_same_mode};
ghost use Rattle.state_texts.specs.StateTexts.{known_text, mode_change, registers_line, state_line};
ghost use Rattle.state_texts.specs.StateTexts.{changes_after, place_changes};

use crate::settings::{ModeText, Setting};
use fact_texts::{FactText, RangeText, context_text, range};
use module_format::Tables;
use states::{Known, Mode, Source, State};
use std::alloc::AllocError;
use std::fmt;

/// Whether a word is in a range.
fn is_in_text(is_inside: bool) -> &'static str
    ensures { result.now ≡ is_in_text is_inside }
{
    if is_inside { " is in " } else { " is not in " }
}

/// What is known of a register, and where it comes from.
#[derive(Clone, Copy)]
pub struct KnownText(pub Known);

impl fmt::Display for KnownText {
    ghost output = { λ known. Some (known_text known.0) };

    fn fmt<W: fmt::Write>(&self, f: &mut fmt::Formatter<W>) -> fmt::Result {
        let fact = FactText(self.0.fact);
        match self.0.source {
            Source::Nowhere => write!(f, "{fact}"),
            Source::From { word } => write!(f, "{fact} from word {word}"),
            Source::Test {
                word,
                lo,
                hi,
                is_inside,
            } => write!(
                f,
                "{fact} if word {word}{}{}",
                is_in_text(is_inside),
                range(lo, hi)
            ),
        }
    }
}

/// Appends the registers and the number.
#[tactic(auto, unfolding(crate::specs::StateTexts::registers_line))]
fn push_registers(text: &mut String, state: &State) -> Result<(), AllocError>
    ensures { OnOk result (string_bytes text.new ≡ string_bytes text.old ++ registers_line (state_of state.now)) }
{
    let a = KnownText(state.stack.a);
    let b = KnownText(state.stack.b);
    let c = KnownText(state.stack.c);
    let number = state.number;
    write!(text, "       A {a}  B {b}  C {c}  number {number}")
}

/// Whether two modes are the same.
fn is_same_mode(mode: Mode, other: Mode) -> bool
    ensures { result ≡ is_same_mode mode other }
{
    match (mode, other) {
        (Mode::Plain, Mode::Plain) | (Mode::Enabling, Mode::Enabling) => true,
        (Mode::Disabling { done }, Mode::Disabling { done: other }) => done == other,
        (
            Mode::Starting { row, started },
            Mode::Starting {
                row: other,
                started: more,
            },
        ) => row == other && started == more,
        _ => false,
    }
}

/// Appends the context, if it has changed.
fn push_context(
    text: &mut String,
    tables: &Tables<'_>,
    old: u32,
    new: u32,
) -> Result<(), AllocError>
    ensures { OnOk result (string_bytes text.new
        ≡ string_bytes text.old ++ context_change (contents_of tables.now) old new) }
{
    if old == new {
        return write!(text, "");
    }
    let context = context_text(tables, new);
    write!(text, "  context {context}")
}

/// Appends the depth, if it has changed.
fn push_depth(text: &mut String, old: i32, new: i32) -> Result<(), AllocError>
    ensures { OnOk result (string_bytes text.new ≡ string_bytes text.old ++ depth_change old new) }
{
    if old <= new && new <= old {
        return write!(text, "");
    }
    write!(text, "  depth {new}")
}

/// Appends the mode, if it has changed.
fn push_mode(text: &mut String, old: Mode, new: Mode) -> Result<(), AllocError>
    ensures { OnOk result (string_bytes text.new ≡ string_bytes text.old ++ mode_change old new) }
{
    if is_same_mode(old, new) {
        return write!(text, "");
    }
    write!(text, "  mode {}", ModeText(new))
}

/// Appends the depth and the mode, if they have changed.
#[tactic(auto, unfolding(crate::specs::StateTexts::place_changes))]
fn push_place_changes(text: &mut String, old: Setting, new: Setting) -> Result<(), AllocError>
    ensures { OnOk result (string_bytes text.new ≡ string_bytes text.old ++ place_changes old new) }
{
    push_depth(text, old.depth, new.depth)?;
    push_mode(text, old.mode, new.mode)?;
    Ok(())
}

/// Appends what has changed from one setting to the next.
#[tactic(auto, unfolding(crate::specs::StateTexts::changes_text))]
fn push_changes(
    text: &mut String,
    tables: &Tables<'_>,
    old: Setting,
    new: Setting,
) -> Result<(), AllocError>
    ensures { OnOk result (string_bytes text.new
        ≡ string_bytes text.old ++ changes_text (contents_of tables.now) old new) }
{
    push_context(text, tables, old.context, new.context)?;
    push_place_changes(text, old, new)?;
    Ok(())
}

/// Appends the same, and a line feed.
#[tactic(auto, unfolding(crate::specs::StateTexts::changes_after))]
fn push_changes_after(
    text: &mut String,
    tables: &Tables<'_>,
    old: Setting,
    new: Setting,
) -> Result<(), AllocError>
    ensures { OnOk result (string_bytes text.new
        ≡ string_bytes text.old ++ changes_after (contents_of tables.now) old new) }
{
    push_changes(text, tables, old, new)?;
    text.push_str("\n")?;
    Ok(())
}

/// Appends the line of a state: its registers and its number, and what has changed since the setting before.
#[tactic(auto, unfolding(crate::specs::StateTexts::state_line))]
pub fn push_state(
    text: &mut String,
    tables: &Tables<'_>,
    before: Setting,
    state: &State,
) -> Result<(), AllocError>
    ensures { OnOk result (string_bytes text.new
        ≡ string_bytes text.old ++ state_line (contents_of tables.now) before (state_of state.now)) }
{
    let setting = Setting::of(state);
    push_registers(text, state)?;
    push_changes_after(text, tables, before, setting)?;
    Ok(())
}
