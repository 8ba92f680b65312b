//! What is written where a module is refused or accepted.
#![tactic(auto, unfolding(crate::proofs::Opening::refusals_opens))]

ghost use Rattle.std.specs.Prelude.{◌≡◌, ◌<◌, ◌++◌, length, OnOk, string_bytes};
ghost use Rattle.states.specs.Views.{state_of};
ghost use Rattle.explanation_parts.specs.Refusals.{refused_head, line_text, refused_text, is_at_entry, cost_at};
ghost use Rattle.explanation_parts.specs.Refusals.{unpaid_text, entry_reason, unreached_reason, within_words};
ghost use Rattle.explanation_parts.specs.Refusals.{within_text, hidden_text, unspelled_text, accepted_text, past_text};
ghost use Rattle.explanation_parts.specs.Refusals.{run_past, ended_text};
ghost use Rattle.explanation_parts.specs.Seen.{seen};

use crate::costs::label_cost;
use crate::leads::push_lack_at;
use crate::ways::Way;
use certificate::Module;
use listings::push_line;
use state_texts::push_frame;
use states::{Rule, State};
use std::alloc::{AllocError, Global};

/// Appends the number and the place of a refusal.
pub fn push_refused(text: &mut String, rule: Rule, at: usize) -> Result<(), AllocError>
    ensures { OnOk result (string_bytes text.new ≡ string_bytes text.old ++ refused_head rule at) }
{
    let number = rule.number();
    write!(text, "refused V{number} at {at}: ")
}

/// Whether the rule is broken by falling into the offset.
pub fn is_at_entry(entered: Result<u64, Rule>, broken: Rule) -> bool
    ensures { result ≡ is_at_entry entered broken }
{
    match entered {
        Ok(_) => false,
        Err(entered) => entered.number() == broken.number(),
    }
}

/// What the label at an offset costs.
fn cost_at(module: &Module, at: u32, state: &State) -> u128
    ensures { result ≡ cost_at «module».now at (state_of state.now) }
{
    match module.label_at(at) {
        Some(row) => label_cost(Way::Falls, state, row),
        None => 0,
    }
}

/// Appends what a label costs, and the number that is left.
fn push_unpaid(text: &mut String, cost: u128, number: u64) -> Result<(), AllocError>
    ensures { OnOk result (string_bytes text.new ≡ string_bytes text.old ++ unpaid_text cost number) }
{
    write!(text, "the label costs {cost} and the number is {number}")
}

/// Appends why a state may not fall into an offset.
pub fn push_entry_reason(
    text: &mut String,
    module: &Module,
    at: u32,
    broken: Rule,
    state: &State,
) -> Result<(), AllocError>
    ensures { OnOk result (string_bytes text.new
        ≡ string_bytes text.old ++ entry_reason «module».now at broken (state_of state.now)) }
{
    match broken {
        Rule::Flow => text.push_str("control runs into a procedure"),
        Rule::Budget => push_unpaid(text, cost_at(module, at, state), state.number),
        _ => push_lack_at(text, module, at, Way::Falls, state),
    }
}

/// Why an instruction is refused to which nothing leads.
pub fn unreached_reason(broken: Rule) -> &'static str
    ensures { result.now ≡ unreached_reason broken }
{
    match broken {
        Rule::Flow => "nothing leads here",
        _ => "this is no instruction of the module",
    }
}

/// Appends a line.
fn push_line_of(text: &mut String, why: &str) -> Result<(), AllocError>
    ensures { OnOk result (string_bytes text.new ≡ string_bytes text.old ++ line_text why.now) }
{
    text.push_str(why)?;
    text.push_str("\n")?;
    Ok(())
}

/// Appends a refusal with a reason that is known as a text.
pub fn push_refusal(text: &mut String, rule: Rule, at: usize, why: &str) -> Result<(), AllocError>
    ensures { OnOk result (string_bytes text.new ≡ string_bytes text.old ++ refused_text rule at why.now) }
{
    push_refused(text, rule, at)?;
    push_line_of(text, why)?;
    Ok(())
}

/// What is said of a start within an instruction.
fn within_words() -> &'static str
    ensures { result.now ≡ within_words }
{
    "a label, an entry or a successor is here, within the instruction at "
}

/// Appends that a row names an offset within the instruction at another one.
fn push_within(text: &mut String, at: usize) -> Result<(), AllocError>
    ensures { OnOk result (string_bytes text.new ≡ string_bytes text.old ++ within_text at) }
{
    text.push_str(within_words())?;
    write!(text, "{at}")?;
    Ok(())
}

/// Appends the same, and a line feed.
fn push_within_line(text: &mut String, at: usize) -> Result<(), AllocError>
    ensures { OnOk result (string_bytes text.new ≡ string_bytes text.old ++ line_text (within_text at)) }
{
    push_within(text, at)?;
    text.push_str("\n")?;
    Ok(())
}

/// Appends the refusal of a start within the instruction at an offset.
pub fn push_hidden(text: &mut String, at: usize, inside: usize) -> Result<(), AllocError>
    ensures { OnOk result (string_bytes text.new ≡ string_bytes text.old ++ hidden_text at inside) }
{
    push_refused(text, Rule::InstructionStart, inside)?;
    push_within_line(text, at)?;
    Ok(())
}

/// Appends the byte at an offset at which no instruction is spelled.
pub fn push_unspelled(
    alloc: Global,
    text: &mut String,
    module: &Module,
    at: usize,
) -> Result<(), AllocError>
    requires { at < length «module».now.code }
    ensures { OnOk result (string_bytes text.new ≡ string_bytes text.old ++ unspelled_text «module».now at) }
{
    let _size = push_line(alloc, text, module.tables(), at)?;
    push_refusal(text, Rule::Spelling, at, "no instruction is spelled here")?;
    Ok(())
}

/// Appends that a module is accepted.
fn push_accepted(text: &mut String, budget: u64) -> Result<(), AllocError>
    ensures { OnOk result (string_bytes text.new ≡ string_bytes text.old ++ accepted_text budget) }
{
    write!(text, "accepted, budget {budget}\n")
}

/// Appends the refusal of a state that runs past the end of the code.
fn push_past(text: &mut String, at: usize) -> Result<(), AllocError>
    ensures { OnOk result (string_bytes text.new ≡ string_bytes text.old ++ past_text at) }
{
    push_refusal(
        text,
        Rule::Flow,
        at,
        "control runs past the end of the code",
    )
}

/// Appends what is known of the words of the frame, and the same.
fn push_run_past(
    text: &mut String,
    module: &Module,
    at: usize,
    state: &State,
) -> Result<(), AllocError>
    ensures { OnOk result (string_bytes text.new
        ≡ string_bytes text.old ++ run_past «module».now at (state_of state.now)) }
{
    push_frame(text, module, state)?;
    push_past(text, at)?;
    Ok(())
}

/// Appends what is said at the end of the code.
pub fn push_end(
    text: &mut String,
    module: &Module,
    at: usize,
    state: Option<&State>,
) -> Result<(), AllocError>
    ensures { OnOk result (string_bytes text.new
        ≡ string_bytes text.old ++ ended_text «module».now at (seen state.entry)) }
{
    match state {
        Some(state) => push_run_past(text, module, at, state),
        None => push_accepted(text, module.tables().budget),
    }
}
