//! Why a rule is broken.
#![tactic(auto, unfolding(crate::proofs::Opening::reasons_opens))]

ghost use Rattle.std.specs.Prelude.{◌≡◌, ◌+◌, ◌<◌, ◌^◌, ◌++◌, OnOk, string_bytes};
ghost use Rattle.states.specs.Views.{state_of};
ghost use Rattle.explanation_parts.specs.Refusals.{line_text, refused_text};
ghost use Rattle.explanation_parts.specs.Seen.{seen};
ghost use Rattle.sentences.specs.Breaches.{reason, rows_before, breach_text};

use crate::rows::push_rows_asked;
use crate::sentence::push_sentence;
use certificate::Module;
use explanation_parts::refusals::{
    push_entry_reason, push_refusal, push_refused, unreached_reason,
};
use prefix_decoder::Instr;
use state_texts::push_frame;
use states::{Rule, State};
use std::alloc::AllocError;

/// Appends why the rule is broken.
fn push_reason(
    text: &mut String,
    module: &Module,
    broken: Broken,
    state: &State,
) -> Result<(), AllocError>
    requires { broken.at + broken.instr.len < 2 ^ 32 }
    ensures { let why = reason «module».now broken.at broken.instr broken.rule broken.at_entry (state_of state.now) in
        OnOk result (string_bytes text.new ≡ string_bytes text.old ++ why) }
{
    let Broken {
        at,
        instr,
        rule,
        at_entry,
    } = broken;
    if at_entry {
        return push_entry_reason(text, module, at as u32, rule, state);
    }
    push_sentence(text, module, at, instr, rule, state)
}

/// An instruction that breaks a rule: by itself, or since a state falls into its offset.
#[derive(Clone, Copy)]
pub struct Broken {
    pub at: usize,
    pub instr: Instr,
    pub rule: Rule,
    pub at_entry: bool,
}

/// Appends why the rule is broken, and a line feed.
fn push_reason_line(
    text: &mut String,
    module: &Module,
    broken: Broken,
    state: &State,
) -> Result<(), AllocError>
    requires { broken.at + broken.instr.len < 2 ^ 32 }
    ensures { let why = reason «module».now broken.at broken.instr broken.rule broken.at_entry (state_of state.now) in
        OnOk result (string_bytes text.new ≡ string_bytes text.old ++ line_text why) }
{
    push_reason(text, module, broken, state)?;
    text.push_str("\n")?;
    Ok(())
}

/// Appends the refusal.
fn push_refused_reason(
    text: &mut String,
    module: &Module,
    broken: Broken,
    state: &State,
) -> Result<(), AllocError>
    requires { broken.at + broken.instr.len < 2 ^ 32 }
    ensures { let why = reason «module».now broken.at broken.instr broken.rule broken.at_entry (state_of state.now) in
        OnOk result (string_bytes text.new ≡ string_bytes text.old ++ refused_text broken.rule broken.at why) }
{
    push_refused(text, broken.rule, broken.at)?;
    push_reason_line(text, module, broken, state)?;
    Ok(())
}

/// Appends the rows that the rule asks, if it is the instruction's.
fn push_rows_before(
    text: &mut String,
    module: &Module,
    broken: Broken,
    state: &State,
) -> Result<(), AllocError>
    requires { broken.at + broken.instr.len < 2 ^ 32 }
    ensures { OnOk result (string_bytes text.new ≡ string_bytes text.old
        ++ rows_before «module».now broken.at broken.instr broken.rule broken.at_entry (state_of state.now)) }
{
    if broken.at_entry {
        return text.push_str("");
    }
    let next = broken.at + broken.instr.len;
    push_rows_asked(text, module, next, broken.instr, broken.rule, state)
}

/// Appends the rows that are asked, and why the rule is broken.
fn push_rows_and_reason(
    text: &mut String,
    module: &Module,
    broken: Broken,
    state: &State,
) -> Result<(), AllocError>
    requires { broken.at + broken.instr.len < 2 ^ 32 }
    ensures { let why = reason «module».now broken.at broken.instr broken.rule broken.at_entry (state_of state.now) in
        let rows = rows_before «module».now broken.at broken.instr broken.rule broken.at_entry (state_of state.now) in
        OnOk result (string_bytes text.new
        ≡ string_bytes text.old ++ (rows ++ refused_text broken.rule broken.at why)) }
{
    push_rows_before(text, module, broken, state)?;
    push_refused_reason(text, module, broken, state)?;
    Ok(())
}

/// Appends what is known of the words of the frame, the rows that are asked, and why the rule is broken.
pub fn push_breach(
    text: &mut String,
    module: &Module,
    broken: Broken,
    state: Option<&State>,
) -> Result<(), AllocError>
    requires { broken.at + broken.instr.len < 2 ^ 32 }
    ensures { OnOk result (string_bytes text.new ≡ string_bytes text.old
        ++ breach_text «module».now broken.at broken.instr broken.rule broken.at_entry (seen state.entry)) }
{
    let Some(state) = state else {
        return push_refusal(text, broken.rule, broken.at, unreached_reason(broken.rule));
    };
    push_frame(text, module, state)?;
    push_rows_and_reason(text, module, broken, state)?;
    Ok(())
}
