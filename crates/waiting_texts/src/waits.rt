//! What a process waits for.

ghost use Rattle.std.specs.Prelude.{◌≡◌, ◌++◌, Some, OnOk, option_map, string_bytes, codes};
ghost use Rattle.machine_state.specs.Moves.{cell_of, link_index};
ghost use Rattle.machine_state.specs.Exchanges.{output_link};
ghost use Rattle.machine_state.specs.JoinLookups.{opened_by};
ghost use Rattle.link_runs.specs.Deadlocks.{on_link};
ghost use Rattle.waiting_texts.specs.Waits.{channels_text, enables_channel, enables_input, guard_text, guards_text};
ghost use Rattle.waiting_texts.specs.Waits.{input_text, inputs_text, is_for_others, output_text, told_of, wait_at};
ghost use Rattle.waiting_texts.specs.Waits.{wait_text, word_address, ended_text, received_text, sent_text};

use crate::setting::{Setting, has_file};
use machine::Checked;
use machine_state::{Condition, DATA_START, Exchange, LINK_WORDS, Link, place_of};
use std::alloc::AllocError;
use std::fmt;
use traffic::input_link;

/// What a process waits for. What it has enabled is told apart.
#[derive(Clone, Copy)]
pub(crate) enum Wait {
    /// For the processor alone.
    Processor,
    /// For a process that receives this many bytes on the channel in this data word.
    Receiver { length: u32, word: u32 },
    /// For a process that sends them.
    Sender { length: u32, word: u32 },
    /// For the rest of this many bytes on an input link, of which some have come.
    Bytes { link: usize, length: u32, done: u32 },
    /// For the acknowledgement of this many bytes on an output link.
    Acknowledgement { link: usize, length: u32 },
    /// For one of the guards that it has enabled.
    Guards,
    /// For those of its branches that have not ended.
    Branches { left: usize, started: u32 },
    /// For nothing.
    ForGood,
}

impl Wait {
    /// Whether it is for another process.
    pub(crate) fn is_for_others(self) -> bool
        ensures { result ≡ is_for_others self }
    {
        match self {
            Wait::Receiver { .. } | Wait::Sender { .. } | Wait::Guards | Wait::Branches { .. } => {
                true
            }
            Wait::Processor | Wait::Bytes { .. } | Wait::Acknowledgement { .. } | Wait::ForGood => {
                false
            }
        }
    }
}

/// The number of an address's data word.
fn word_of(address: u32) -> u32
    ensures { result ≡ cell_of address }
{
    place_of(address) / 4
}

/// The link whose output word is at the address.
fn output_link(address: u32) -> Option<Link>
    ensures { option_map link_index result ≡ output_link address }
{
    if address == LINK_WORDS {
        Some(Link::Zero)
    } else if address == LINK_WORDS + 4 {
        Some(Link::One)
    } else if address == LINK_WORDS + 8 {
        Some(Link::Two)
    } else if address == LINK_WORDS + 12 {
        Some(Link::Three)
    } else {
        None
    }
}

/// The wait for the rest of a message on a link.
fn wait_on_link(exchange: Exchange, done: u32) -> Wait
    ensures { result ≡ told_of (on_link exchange done) }
{
    let Exchange {
        channel,
        length,
        ..
    } = exchange;
    if let Some(link) = input_link(channel) {
        return Wait::Bytes {
            link: link.index(),
            length,
            done,
        };
    }
    match output_link(channel) {
        Some(link) => Wait::Acknowledgement {
            link: link.index(),
            length,
        },
        None => Wait::ForGood,
    }
}

/// The wait of a process that has ended: for its branches, while its join is open.
fn wait_at_end(checked: &Checked<'_>, process: u64) -> Wait
    ensures { result ≡ ended_text (opened_by checked.now.world process) }
{
    let Some(role) = checked.role(process) else {
        return Wait::ForGood;
    };
    match &role.opened {
        Some(join) => Wait::Branches {
            left: join.members.len(),
            started: join.started,
        },
        None => Wait::ForGood,
    }
}

/// What the process in this condition waits for.
pub(crate) fn wait_of(checked: &Checked<'_>, process: u64, condition: Condition) -> Wait
    ensures { result ≡ wait_at checked.now.world process condition }
{
    match condition {
        Condition::Ready => Wait::Processor,
        Condition::Sending(exchange) => Wait::Receiver {
            length: exchange.length,
            word: word_of(exchange.channel),
        },
        Condition::Receiving(exchange) => Wait::Sender {
            length: exchange.length,
            word: word_of(exchange.channel),
        },
        Condition::OnLink { exchange, done } => wait_on_link(exchange, done),
        Condition::Alternating => Wait::Guards,
        Condition::Stopped => Wait::ForGood,
        Condition::Ended => wait_at_end(checked, process),
    }
}

/// What is wrong with an input link that gives no byte.
fn input_note(setting: &Setting, link: usize) -> &'static str
    ensures { result.now ≡ input_text setting.now link }
{
    if !has_file(&setting.inputs, link) {
        ", which has no file"
    } else if setting.is_over {
        ", which is at its end"
    } else {
        ""
    }
}

/// What is wrong with an output link.
fn output_note(setting: &Setting, link: usize) -> &'static str
    ensures { result.now ≡ output_text setting.now link }
{
    if has_file(&setting.outputs, link) {
        ""
    } else {
        ", which has no file"
    }
}

/// How much of a message has come from a link, in words.
#[derive(Clone, Copy)]
struct ReceivedText {
    link: usize,
    length: u32,
    done: u32,
}

impl fmt::Display for ReceivedText {
    ghost output = { λ text. Some (received_text text.link text.length text.done) };

    fn fmt<W: fmt::Write>(&self, f: &mut fmt::Formatter<W>) -> fmt::Result {
        let ReceivedText { link, length, done } = *self;
        write!(f, "receives {length} bytes on link in{link}, {done} came")
    }
}

/// A message that went out on a link, in words.
#[derive(Clone, Copy)]
struct SentText {
    link: usize,
    length: u32,
}

impl fmt::Display for SentText {
    ghost output = { λ text. Some (sent_text text.link text.length) };

    fn fmt<W: fmt::Write>(&self, f: &mut fmt::Formatter<W>) -> fmt::Result {
        let SentText { link, length } = *self;
        write!(f, "sends {length} bytes on link out{link}")
    }
}

/// A wait, in words.
#[derive(Clone, Copy)]
pub(crate) struct WaitText {
    pub(crate) setting: Setting,
    pub(crate) wait: Wait,
}

impl fmt::Display for WaitText {
    ghost output = { λ text. Some (wait_text text.setting text.wait) };

    fn fmt<W: fmt::Write>(&self, f: &mut fmt::Formatter<W>) -> fmt::Result {
        let setting = &self.setting;
        match self.wait {
            Wait::Processor => write!(f, "is ready"),
            Wait::Receiver { length, word } => write!(
                f,
                "sends {length} bytes on the channel in word {word}, and nobody receives"
            ),
            Wait::Sender { length, word } => write!(
                f,
                "receives {length} bytes on the channel in word {word}, and nobody sends"
            ),
            Wait::Bytes { link, length, done } => write!(
                f,
                "{}{}",
                ReceivedText { link, length, done },
                input_note(setting, link)
            ),
            Wait::Acknowledgement { link, length } => write!(
                f,
                "{}{}",
                SentText { link, length },
                output_note(setting, link)
            ),
            Wait::Guards => write!(f, "waits for a guard:"),
            Wait::Branches { left, started } => write!(
                f,
                "waits for {left} of its {started} branches"
            ),
            Wait::ForGood => write!(f, "has stopped for good"),
        }
    }
}

/// Whether the process has enabled the input link.
fn enables_input(checked: &Checked<'_>, process: u64, link: Link) -> bool
    ensures { result ≡ enables_input checked.now.world process (link_index link) }
{
    match checked.input(link).enabled {
        Some(by) => by == process,
        None => false,
    }
}

/// The address of the data word of this number.
fn word_address(word: u32) -> u32
    ensures { result ≡ word_address word }
{
    DATA_START.wrapping_add(word.wrapping_mul(4))
}

/// Whether the process has enabled the channel in the data word of this number.
fn enables_channel(checked: &Checked<'_>, process: u64, word: u32) -> bool
    ensures { result ≡ enables_channel checked.now.world process word }
{
    match checked.channel(word_address(word)) {
        Some(channel) => match channel.enabled {
            Some(by) => by == process,
            None => false,
        },
        None => false,
    }
}

/// A guard by the name of its kind and its number, if it is enabled.
#[derive(Clone, Copy)]
struct GuardText {
    enabled: bool,
    name: &'static str,
    number: u32,
}

impl fmt::Display for GuardText {
    ghost output = { λ guard. Some (guard_text guard.enabled guard.name.now guard.number) };

    fn fmt<W: fmt::Write>(&self, f: &mut fmt::Formatter<W>) -> fmt::Result {
        if !self.enabled {
            return write!(f, "");
        }
        write!(f, "{}{}", self.name, self.number)
    }
}

/// An input link as a guard.
fn input_guard(checked: &Checked<'_>, process: u64, link: Link, number: u32) -> GuardText
    ensures { guard_text result.enabled result.name.now result.number
        ≡ guard_text (enables_input checked.now.world process (link_index link)) (codes " in") number }
{
    GuardText {
        enabled: enables_input(checked, process, link),
        name: " in",
        number,
    }
}

/// Appends the input links that the process has enabled.
fn push_inputs(text: &mut String, checked: &Checked<'_>, process: u64) -> Result<(), AllocError>
    ensures { OnOk result (string_bytes text.new ≡ string_bytes text.old ++ inputs_text checked.now.world process) }
{
    let first = input_guard(checked, process, Link::Zero, 0);
    let second = input_guard(checked, process, Link::One, 1);
    let third = input_guard(checked, process, Link::Two, 2);
    let fourth = input_guard(checked, process, Link::Three, 3);
    write!(text, "{first}{second}{third}{fourth}")
}

/// Appends the data word of a channel, if the process has enabled it.
fn push_channel(
    text: &mut String,
    checked: &Checked<'_>,
    process: u64,
    word: u32,
) -> Result<(), AllocError>
    ensures { OnOk result (string_bytes text.new ≡ string_bytes text.old
        ++ guard_text (enables_channel checked.now.world process word) (codes " word ") word) }
{
    let guard = GuardText {
        enabled: enables_channel(checked, process, word),
        name: " word ",
        number: word,
    };
    write!(text, "{guard}")
}

/// Appends the channels that the process has enabled, of this number of data words.
fn push_channels(
    text: &mut String,
    checked: &Checked<'_>,
    process: u64,
    words: u32,
) -> Result<(), AllocError>
    ensures { OnOk result
        (string_bytes text.new ≡ string_bytes text.old ++ channels_text checked.now.world process words) }
{
    for word in 0..words {
        push_channel(text, checked, process, word)?;
    }
    Ok(())
}

/// Appends all guards, of this number of data words, if the process waits for one.
pub(crate) fn push_guards(
    text: &mut String,
    checked: &Checked<'_>,
    process: u64,
    wait: Wait,
    words: u32,
) -> Result<(), AllocError>
    ensures { OnOk result
        (string_bytes text.new ≡ string_bytes text.old ++ guards_text words checked.now.world process wait) }
{
    match wait {
        Wait::Guards => {
            push_inputs(text, checked, process)?;
            push_channels(text, checked, process, words)
        }
        _ => text.push_str(""),
    }
}
