//! Parts of a sentence, which are appended to a text.

ghost use Rattle.std.specs.Prelude.{◌≡◌, ◌++◌, OnOk, string_bytes};
ghost use Rattle.usage_texts.specs.Phrases.{phrase_text, phrases_text};
ghost use Rattle.usage_texts.specs.Sharing.{spot_text};
ghost use Rattle.usage_texts.specs.Texts.{quoted_text};
ghost use Rattle.usage_texts.specs.Words.{counted_text, ends_text, is_one};

use crate::shapes::{push_shape, push_size};
use reason_texts::push_bytes;
use scalar_ranges::Meaning;
use std::alloc::AllocError;
use usage_reasons::KnownName;
use word_arithmetic::Range;

/// Numbers from the least to the greatest one.
#[derive(Clone, Copy)]
pub(crate) struct Ends {
    pub(crate) lo: i64,
    pub(crate) hi: i64,
}

/// Bytes of a line behind a quote, and what ends them: a quote too, after two dots if there are more of them.
#[derive(Clone, Copy)]
pub(crate) struct Quoted<'s> {
    pub(crate) bytes: &'s [u8],
    pub(crate) end: &'static str,
}

/// A part of a sentence.
#[derive(Clone, Copy)]
pub(crate) enum Phrase<'s> {
    Words(&'static str),
    Count(u32),
    Number(i64),
    /// Numbers from the least to the greatest one.
    Range(Ends),
    /// A number of such things.
    Counted(usize, &'static str),
    /// Bytes of a line.
    Shown(&'s [u8]),
    Quoted(Quoted<'s>),
    /// What a name denotes, as it is declared.
    Shape(Meaning),
    /// A channel, or this element of an array of channels.
    Spot(KnownName<'s>, u32),
}

/// The numbers of a range.
pub(crate) fn range_phrase(range: Range) -> Phrase<'static>
    ensures { phrase_text result ≡ ends_text range.lo range.hi }
{
    Phrase::Range(Ends {
        lo: i64::from(range.lo),
        hi: i64::from(range.hi),
    })
}

/// Whether two numbers are one.
fn is_one(lo: i64, hi: i64) -> bool
    ensures { result ≡ is_one lo hi }
{
    lo == hi
}

/// Appends numbers from the least to the greatest one.
fn push_ends(text: &mut String, ends: Ends) -> Result<(), AllocError>
    ensures { OnOk result (string_bytes text.new ≡ string_bytes text.old ++ ends_text ends.lo ends.hi) }
{
    let Ends { lo, hi } = ends;
    if is_one(lo, hi) {
        return write!(text, "{lo}");
    }
    write!(text, "{lo}..{hi}")
}

/// Appends a number of such things.
fn push_counted(text: &mut String, count: usize, name: &str) -> Result<(), AllocError>
    ensures { OnOk result (string_bytes text.new ≡ string_bytes text.old ++ counted_text count name.now) }
{
    if count == 1 {
        return write!(text, "1 {name}");
    }
    write!(text, "{count} {name}s")
}

/// Appends bytes of a line in quotes.
fn push_quoted(text: &mut String, quoted: Quoted<'_>) -> Result<(), AllocError>
    ensures { OnOk result (string_bytes text.new
        ≡ string_bytes text.old ++ quoted_text quoted.entry.bytes.now quoted.entry.end.now) }
{
    text.push_str("`")?;
    push_bytes(text, quoted.bytes)?;
    text.push_str(quoted.end)
}

/// Appends a channel, or an element of an array of channels.
fn push_spot(text: &mut String, channel: KnownName<'_>, element: u32) -> Result<(), AllocError>
    ensures { OnOk result (string_bytes text.new ≡ string_bytes text.old ++ spot_text channel.entry element) }
{
    push_bytes(text, channel.name)?;
    match channel.meaning {
        Meaning::Channels { .. } => push_size(text, Some(element)),
        _ => Ok(()),
    }
}

/// Appends a part of a sentence.
fn push_phrase(text: &mut String, phrase: Phrase<'_>) -> Result<(), AllocError>
    ensures { OnOk result (string_bytes text.new ≡ string_bytes text.old ++ phrase_text phrase.entry) }
{
    match phrase {
        Phrase::Words(words) => text.push_str(words),
        Phrase::Count(count) => write!(text, "{count}"),
        Phrase::Number(number) => write!(text, "{number}"),
        Phrase::Range(ends) => push_ends(text, ends),
        Phrase::Counted(count, name) => push_counted(text, count, name),
        Phrase::Shown(bytes) => push_bytes(text, bytes),
        Phrase::Quoted(quoted) => push_quoted(text, quoted),
        Phrase::Shape(meaning) => push_shape(text, meaning),
        Phrase::Spot(channel, element) => push_spot(text, channel, element),
    }
}

/// Appends the parts of a sentence, one after the other.
pub(crate) fn push_phrases(text: &mut String, phrases: &[Phrase<'_>]) -> Result<(), AllocError>
    ensures { OnOk result (string_bytes text.new ≡ string_bytes text.old ++ phrases_text phrases.now) }
{
    for phrase in phrases {
        push_phrase(text, *phrase)?;
    }
    Ok(())
}
