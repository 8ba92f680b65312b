//! The channels that words name, and the lengths of their messages.
#![tactic(auto, unfolding(crate::proofs::Opening::channels_opens))]

ghost use Rattle.std.specs.Prelude.{◌≡◌, ◌++◌, OnOk, string_bytes};
ghost use Rattle.module_format.specs.Keeping.{Keeps};
ghost use Rattle.rulings.specs.Channels.{channel_of, message_length};
ghost use Rattle.states.specs.Views.{state_of};
ghost use Rattle.states.specs.declared.known.WordFact.TheVariants.{Alone};
ghost use Rattle.explanation_parts.specs.Channels.{named_part, b_part, channel_found, a_part, bytes_part, length_part};
ghost use Rattle.explanation_parts.specs.Channels.{length_found};

use certificate::Module;
use fact_texts::{ChannelText, FactText};
use module_format::{EndKind, Fact};
use rulings::Place;
use rulings::channels::channel_of;
use states::{State, WordFact};
use std::alloc::AllocError;

/// Appends which channel a word names.
pub(crate) fn push_named(text: &mut String, channel: Option<EndKind>) -> Result<(), AllocError>
    ensures { OnOk result (string_bytes text.new ≡ string_bytes text.old ++ named_part channel) }
{
    match channel {
        Some(kind) => write!(text, ", which is {}", ChannelText(kind)),
        None => text.push_str(", which is none"),
    }
}

/// Appends what B is.
fn push_b(text: &mut String, fact: Fact) -> Result<(), AllocError>
    ensures { OnOk result (string_bytes text.new ≡ string_bytes text.old ++ b_part fact) }
{
    let b = FactText(fact);
    write!(text, "B is {b}")
}

/// Appends what B is, and which channel that is.
pub fn push_channel(text: &mut String, fact: Fact) -> Result<(), AllocError>
    ensures { OnOk result (string_bytes text.new ≡ string_bytes text.old ++ channel_found fact) }
{
    push_b(text, fact)?;
    push_named(text, channel_of(WordFact::Alone(fact)))?;
    Ok(())
}

/// Appends what A is.
fn push_a(text: &mut String, fact: Fact) -> Result<(), AllocError>
    ensures { OnOk result (string_bytes text.new ≡ string_bytes text.old ++ a_part fact) }
{
    let a = FactText(fact);
    write!(text, "A is {a}")
}

/// Appends how many bytes the messages of a channel have.
fn push_bytes(text: &mut String, kind: EndKind, length: Option<u32>) -> Result<(), AllocError>
    ensures { OnOk result (string_bytes text.new ≡ string_bytes text.old ++ bytes_part kind length) }
{
    match length {
        Some(bytes) => write!(text, "; those of {} have {bytes} bytes", ChannelText(kind)),
        None => write!(text, "; those of {} have ? bytes", ChannelText(kind)),
    }
}

/// Appends how many bytes the messages have of the channel that a word names.
#[tactic(auto, using(rulings::proofs::HeldChannels::none_further), unfolding(crate::specs::Channels::length_part))]
fn push_length_part(
    text: &mut String,
    module: &Module,
    context: u32,
    channel: Option<EndKind>,
) -> Result<(), AllocError>
    ensures { OnOk result (string_bytes text.new
        ≡ string_bytes text.old ++ length_part «module».now context channel) }
{
    let Some(kind) = channel else {
        return text.push_str("; B names no channel");
    };
    let _kept = module.tables();
    let place = Place {
        module,
        at: 0,
        len: 0,
    };
    push_bytes(text, kind, place.message_length(context, kind, 0))
}

/// Appends what A is, and how many bytes the messages of the channel in B have.
pub fn push_length(text: &mut String, module: &Module, state: &State) -> Result<(), AllocError>
    ensures { OnOk result (string_bytes text.new
        ≡ string_bytes text.old ++ length_found «module».now (state_of state.now)) }
{
    let channel = channel_of(WordFact::Alone(state.stack.b.fact));
    push_a(text, state.stack.a.fact)?;
    push_length_part(text, module, state.context, channel)?;
    Ok(())
}
